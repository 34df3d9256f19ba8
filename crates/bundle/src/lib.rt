// One bundle of the entry table: what its segment byte says, its entries, and its checks (12, 14, 12, 13).
#![tactic(auto)]

mod steps;

ghost use Rattle.std.specs.Prelude.{◌≡◌, ◌*◌, ◌≤◌};
ghost use Rattle.bundle.specs.Bundle.{kind_of, width_of, entry_of};

use refusal::Refusal;
pub use steps::{head_at, kind_of, next};

// What a bundle's segment byte says: its ordinals have no entries, movable entries, or entries in a segment of this number.
#[derive(Clone, Copy)]
pub enum Kind {
    Null,
    Movable,
    Fixed(u8),
}

#[derive(Clone, Copy)]
pub struct Bundle {
    // How many ordinals the bundles before it use: its own first one is the next.
    pub used: u32,
    pub count: u32,
    pub kind: Kind,
    // The places of its first entry and of the next bundle, counted from the table's start.
    pub at: usize,
    pub end: usize,
}

// The two bytes in front of a bundle's entries. A count of 0 ends the table.
#[derive(Clone, Copy)]
pub struct Head {
    pub count: u32,
    pub segment: u8,
}

#[derive(Clone, Copy)]
pub struct Entry {
    pub segment: u8,
    pub offset: u16,
    pub flag: u8,
}

// The bytes of an entry.
pub fn width(kind: Kind) -> usize
    ensures is { result ≡ width_of kind }
    ensures low { result ≤ 6 }
{
    match kind {
        Kind::Null => 0,
        Kind::Movable => 6,
        Kind::Fixed(_) => 3,
    }
}

// The bytes of a bundle's entries, by arithmetic alone: in a table of mixed bundles a branch is guessed wrong each time.
#[tactic(auto, using(crate::proofs::Sized::sized))]
pub fn size_of(head: Head) -> usize
    ensures is { result ≡ width_of (kind_of head.segment) * head.count }
    ensures low { result ≤ 6 * head.count }
{
    let fixed = 3 * head.count as usize;
    let movable = (head.segment / 255) as usize;
    let null = ((255 - head.segment) / 255) as usize;
    fixed + fixed * movable - fixed * null
}

// What the entry says that starts at the first byte of `e`.
pub fn read_entry(kind: Kind, e: &[u8]) -> Result<Entry, Refusal>
    ensures { result ≡ entry_of kind e.now }
{
    match kind {
        Kind::Null => Err(Refusal::NoSuchOrdinal),
        Kind::Movable => Ok(Entry {
            segment: le::byte(e, 3),
            offset: le::word(e, 4),
            flag: le::byte(e, 0),
        }),
        Kind::Fixed(segment) => Ok(Entry {
            segment,
            offset: le::word(e, 1),
            flag: le::byte(e, 0),
        }),
    }
}
