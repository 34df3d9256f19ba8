// Numbers whose bytes all lie in the slice: read with no test, for a caller that has tested the place.
ghost use Rattle.std.specs.Prelude.{◌≡◌, ◌+◌, ◌≤◌, length};
ghost use Rattle.le.specs.Number.{word_at, dword_at};

// The 16-bit number at `at`.
#[tactic(auto, using(crate::proofs::Number::word_joined))]
pub fn word(s: &[u8], at: usize) -> u16
    requires { at + 2 ≤ length s.now }
    ensures { result ≡ word_at s.now at }
{
    u16::from_le_bytes([s[at], s[at + 1]])
}

// The 32-bit number at `at`.
#[tactic(auto, using(crate::proofs::Number::dword_words, crate::proofs::Number::dword_joined))]
pub fn dword(s: &[u8], at: usize) -> u32
    requires { at + 4 ≤ length s.now }
    ensures { result ≡ dword_at s.now at }
{
    u32::from_le_bytes([s[at], s[at + 1], s[at + 2], s[at + 3]])
}
