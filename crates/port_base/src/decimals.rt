//! Numbers as decimal text: no sign, no spaces, no 0 in front.
ghost use Rattle.std.specs.Prelude.{◌≡◌, ◌↔◌, ◌<◌, ◌^◌, ℕ, List, Some};
ghost use Rattle.std.specs.List.{list_all};
ghost use Rattle.std.specs.Char.{is_ascii_digit};
ghost use Rattle.std.specs.Fmt.{decimal};
ghost use Rattle.port_base.specs.Decimals.{is_number, number_of, CountsTo};

fn are_digits(text: &[u8]) -> bool
    ensures { result ≡ list_all is_ascii_digit text.now }
{
    text.iter().all(|b| b.is_ascii_digit())
}

// Digits, the first of them 0 only alone.
fn is_number(text: &[u8]) -> bool
    ensures { result ≡ is_number text.now }
{
    !text.is_empty() && are_digits(text) && (text.len() == 1 || text[0] != b'0')
}

/// The number that is written so, where it is below 2^64.
pub fn number_of(text: &[u8]) -> Option<u64>
    ensures { CountsTo result (number_of text.now) }
{
    if !is_number(text) {
        return None;
    }
    match std::str::from_utf8(text) {
        Ok(digits) => match digits.parse::<u64>() {
            Ok(n) => Some(n),
            Err(_) => None,
        },
        Err(_) => unreachable!(),
    }
}

/// The text of a number is its decimal text, and no other: a law, without a call.
#[tactic(auto, using(crate::proofs::DecimalTexts::number_of_decimal))]
pub fn numbers_are_decimal_texts()
    ensures { (text : List ℕ) (n : ℕ) → n < 2 ^ 64
        → ((number_of text ≡ Some n) ↔ (text ≡ decimal n)) }
{}

#[cfg(test)]
mod tests {
    use super::*;

    #[test]
    fn numbers_are_plain_decimals(rt: HostRuntime) {
        let cases: [(&[u8], Option<u64>); 8] = [
            (b"0", Some(0)),
            (b"4096", Some(4096)),
            (b"18446744073709551615", Some(18446744073709551615)),
            (b"18446744073709551616", None),
            (b"", None),
            (b"007", None),
            (b"+7", None),
            (b"7 ", None),
        ];
        for (text, want) in cases {
            assert_eq!(rt; number_of(text), want);
        }
    }
}
