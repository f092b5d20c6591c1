//! Texts in parts.
ghost use Rattle.std.specs.Prelude.{◌≡◌, ◌<◌, ◌==◌, length, position, IfSome};
ghost use Rattle.std.specs.Option.{option_map};
ghost use Rattle.mount9_run.specs.Texts.{split_once};

// The place of the first such byte.
fn find_byte(text: &[u8], byte: u8) -> Option<usize>
    ensures found { result ≡ position (λ b. b == byte) text.now }
    ensures within { IfSome result (λ i. i < length text.now) }
{
    text.iter().position(|b| *b == byte)
}

/// What stands before the first such byte, and what stands after it.
#[tactic(auto, unfolding(crate::specs::Texts::split_once))]
pub fn split_once(text: &[u8], byte: u8) -> Option<(&[u8], &[u8])>
    ensures value { option_map (λ x. (x.0.now, x.1.now)) result ≡ split_once byte text.now }
    ensures shorter { IfSome result (λ x. length x.1.now < length text.now) }
{
    match find_byte(text, byte) {
        Some(i) => Some((&text[..i], &text[i + 1..])),
        None => None,
    }
}
