// Preparing a segment: what it answers. What it means stands in `specs/`, and why it meets the demands on it in `proofs/`; `loader`
// has its code.
#![tactic(auto)]

ghost use Rattle.std.specs.Prelude.{◌≡◌};

use refusal::Refusal;

// Why preparing is refused: the refusal with the number of its record, counted from 1; 0 where it is not at a record.
#[derive(Clone, Copy, Debug, PartialEq, Eq)]
pub struct Rejection {
    pub why: Refusal,
    pub number: u32,
}

impl From<Refusal> for Rejection {
    ghost from_gives = { λ why r. r ≡ record { why = why; number = 0 } };

    // A refusal that is not at a record.
    fn from(why: Refusal) -> Rejection {
        Rejection { why, number: 0 }
    }
}
