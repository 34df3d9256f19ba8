// Little-endian numbers out of a slice of bytes, parts of a slice, and the two ways in which one is filled (`slice`).
//
// Every reader answers for every place: a byte past the end counts as 0. So no caller has to show that a place lies
// inside, and a check of a place can be stated by itself. `inside` has those that need no test.
#![tactic(auto)]

pub mod inside;
pub mod slice;

ghost use Rattle.std.specs.Prelude.{◌≡◌};
ghost use Rattle.le.specs.Number.{byte_at, word_at, dword_at};

// The byte at `at`.
pub fn byte(s: &[u8], at: usize) -> u8
    ensures { result ≡ byte_at s.now at }
{
    s.get(at).copied().unwrap_or(0)
}

// The 16-bit number at `at`.
#[tactic(auto, using(crate::proofs::Number::number_past, crate::proofs::Number::word_joined))]
pub fn word(s: &[u8], at: usize) -> u16
    ensures { result ≡ word_at s.now at }
{
    if s.len() <= at {
        return 0;
    }
    u16::from_le_bytes([byte(s, at), byte(s, at + 1)])
}

// The 32-bit number at `at`.
#[tactic(auto, using(crate::proofs::Number::number_past, crate::proofs::Number::dword_words, crate::proofs::Number::dword_joined))]
pub fn dword(s: &[u8], at: usize) -> u32
    ensures { result ≡ dword_at s.now at }
{
    if s.len() <= at {
        return 0;
    }
    u32::from_le_bytes([
        byte(s, at),
        byte(s, at + 1),
        byte(s, at + 2),
        byte(s, at + 3),
    ])
}
