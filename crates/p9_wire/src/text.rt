// Texts behind their length.
ghost use Rattle.std.specs.Prelude.{◌≡◌, ◌↔◌, ◌<◌, ◌^◌, ℕ, List, length, IsTrue, true, bytes_eq};
ghost use Rattle.std.specs.Prelude.{IfOk, IfErr, ◌⊎◌};
ghost use Rattle.std.specs.Hash as fed;
ghost use Rattle.std.specs.Cmp.Rules.{hashing};
ghost use Rattle.std.proofs.Common.{rules};
ghost use Rattle.p9_wire.specs.Reading.{Always};
ghost use Rattle.p9_wire.specs.Texts.{is_text};
ghost use Rattle.p9_wire.specs.Values.{TextSpells, text_spelling, text_at, text_law};
ghost use Rattle.std.proofs.lemmas.Cmp.{nat_list_eq_equiv};
ghost use Rattle.std.specs.Cmp.{partial_equiv_from_equiv};

use crate::bytes::decode_bytes;
use crate::error::WireError;
use crate::fields::{Fields, Raw};
use crate::format::WireFormat;
use port_base::sink::{NoMemory, Sink, SinkFault};
use port_base::source::Source;
use std::alloc::Global;
use std::fmt;
use std::hash::{Hash, Hasher};
use std::marker::Model;

/// The longest text in bytes: its length is a u16.
pub const MAX_TEXT_LENGTH: usize = 65535;

// Whether the bytes are UTF-8 without a zero byte.
#[tactic(auto, unfolding(crate::specs::Texts::is_text))]
fn test_text(bytes: &[u8]) -> bool
    ensures { result ≡ is_text bytes.now }
{
    match std::str::from_utf8(bytes) {
        Ok(_) => !bytes.contains(&0),
        Err(_) => false,
    }
}

/// A text of at most 65535 bytes, UTF-8 without a zero byte.
#[derive(Drop)]
pub struct P9String {
    bytes: Vec<u8>,
}

impl Model for P9String {
    ghost Value = { List ℕ };

    ghost view = { λ s. s.bytes.items };

    ghost invariant = { λ s. (length s.bytes.items < 2 ^ 16) × (is_text s.bytes.items ≡ true) };
}

impl P9String {
    /// A copy of the bytes. `InvalidInput`: more than 65535 bytes, a zero byte, or bytes that
    /// aren't UTF-8.
    pub fn new(alloc: Global, bytes: &[u8]) -> Result<P9String, WireError>
        ensures ok { IfOk result (λ s. s ≡ bytes.now) }
        ensures text { IfOk result TextSpells }
        ensures errors { IfErr result (λ e. ((e ≡ WireError.InvalidInput)
            × (TextSpells bytes.now → ⊥)) ⊎ ((e ≡ WireError.NoMemory) × TextSpells bytes.now)) }
    {
        if bytes.len() > MAX_TEXT_LENGTH || !test_text(bytes) {
            return Err(WireError::InvalidInput);
        }
        let bytes = bytes.to_vec(alloc)?;
        Ok(P9String { bytes })
    }

    /// How many bytes the text has.
    pub fn len(&self) -> usize
        ensures { result ≡ length self.now }
    {
        self.bytes.len()
    }

    /// The bytes, which are UTF-8 without a zero byte.
    pub fn as_bytes(&self) -> &[u8]
        ensures bytes { result.now ≡ self.now }
        ensures text { TextSpells self.now }
    {
        &self.bytes
    }

    /// Whether these are the text's bytes.
    pub fn eq_text(&self, text: &str) -> bool
        ensures { IsTrue result ↔ (self.now ≡ text.now) }
    {
        self.bytes.as_slice() == text.as_bytes()
    }

    /// A copy of the text.
    pub fn try_clone(&self, alloc: Global) -> Result<P9String, NoMemory>
        ensures { IfOk result (λ s. s ≡ self.now) }
    {
        let bytes = self.bytes.to_vec(alloc).map_err(|_| NoMemory)?;
        Ok(P9String { bytes })
    }
}

impl PartialEq for P9String {
    ghost eq = { bytes_eq };

    ghost laws = { partial_equiv_from_equiv nat_list_eq_equiv };

    fn eq(&self, other: &P9String) -> bool
        ensures test { result ≡ bytes_eq self.now other.now }
        ensures same { IsTrue result ↔ (self.now ≡ other.now) }
    {
        self.bytes.as_slice() == other.bytes.as_slice()
    }
}

impl Eq for P9String {
    ghost laws = { nat_list_eq_equiv };
}

impl Hash for P9String {
    ghost hash_input = { fed.slice fed.u8 };

    ghost respects_eq = { Prim.search (hashing, rules) };

    fn hash<H: Hasher>(&self, state: &mut H) {
        self.bytes.as_slice().hash(state);
    }
}

impl fmt::Debug for P9String {
    fn fmt<W: fmt::Write>(&self, f: &mut fmt::Formatter<W>) -> fmt::Result {
        match std::str::from_utf8(&self.bytes) {
            Ok(text) => write!(f, "{text:?}"),
            Err(_) => write!(f, "not UTF-8"),
        }
    }
}

impl WireFormat for P9String {
    ghost Plain = { List ℕ };

    ghost view = { λ s. s };

    ghost Spells = { TextSpells };

    ghost spelling = { text_spelling };

    ghost IsSound = { Always };

    ghost IsReadable = { Always };

    ghost reading = { text_at };

    ghost lawful = { text_law };

    fn fits(&self) -> bool {
        let _bytes = &self.bytes;
        true
    }

    fn byte_size(&self) -> u32 {
        self.bytes.len() as u32 + 2
    }

    fn send<K: Sink>(&self, sink: &mut K) -> Result<(), SinkFault> {
        let count = self.bytes.len() as u16;
        let raw = Raw { bytes: &self.bytes };
        (&count, raw).send(sink)
    }

    fn decode<S: Source>(alloc: Global, source: &mut S) -> Result<Self, WireError> {
        let count = u16::decode(alloc, source)?;
        let bytes = decode_bytes(alloc, source, count as usize)?;
        if !test_text(&bytes) {
            return Err(WireError::InvalidInput);
        }
        Ok(P9String { bytes })
    }
}
