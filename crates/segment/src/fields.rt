// What a record of the segment table says, before any check.
ghost use Rattle.std.specs.Prelude.{◌≡◌, ◌*◌, ◌^◌, ◌≤◌, ◌<◌};
ghost use Rattle.segment.specs.Segment.{segment_at, full_of, stored_of};

use crate::Segment;
use header::Module;

// What the record of an index says, unchecked. It is put into its one caller, as that is into its own.
#[inline(always)]
#[tactic(auto, unfolding(crate::specs::Segment::segment_at))]
pub fn read(m: &Module, index: u32) -> Segment
    ensures is { result ≡ segment_at m.now.image.now m.now.header index }
    ensures start { result.start < 2 ^ 48 }
    ensures list { result.list < 2 ^ 49 }
{
    let image = m.image;
    let at = m.header.segments.at as usize + 8 * index as usize;
    let sector = le::word(image, at);
    let start = scaled(sector, m.header.unit);
    let stored = stored(sector, le::word(image, at + 2));
    let flags = le::word(image, at + 4);
    let allocation = full(le::word(image, at + 6));
    let end = start + stored as usize;
    let (records, list) = match flags / 0x100 % 2 {
        1 => (le::word(image, end), end + 2),
        _ => (0, 0),
    };
    Segment {
        start,
        stored,
        flags,
        allocation,
        records,
        list,
    }
}

// The place of a sector.
fn scaled(sector: u16, unit: u32) -> usize
    ensures is { result ≡ sector * unit }
    ensures low { result < 2 ^ 48 }
{
    sector as usize * unit as usize
}

// The stored length of a segment at a sector, from the length word.
#[tactic(auto, unfolding(crate::specs::Segment::stored_of))]
fn stored(sector: u16, length: u16) -> u32
    ensures is { result ≡ stored_of sector length }
    ensures low { result ≤ 65536 }
{
    if sector == 0 { 0 } else { full(length) }
}

// A word in which 0 stands for 65,536.
#[tactic(auto, unfolding(crate::specs::Segment::full_of))]
fn full(w: u16) -> u32
    ensures is { result ≡ full_of w }
    ensures low { result ≤ 65536 }
{
    if w == 0 { 65536 } else { w as u32 }
}
