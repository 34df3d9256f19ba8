// A segment's record in the segment table: its stored bytes, its allocation and its record list, or the refusal.
#![tactic(auto)]

mod fields;

ghost use Rattle.std.specs.Prelude.{◌≡◌};
ghost use Rattle.segment.specs.Segment.{segment_of, record_of};

use header::Module;
use refusal::Refusal;

#[derive(Clone, Copy)]
pub struct Segment {
    // The place of the stored bytes, and how many there are.
    pub start: usize,
    pub stored: u32,
    pub flags: u16,
    pub allocation: u32,
    // How many fixup records there are, and the place of the first; 0 and 0 where none follow the stored bytes.
    pub records: u16,
    pub list: usize,
}

// The segment of a number, counted from 1.
#[tactic(auto, using(header::proofs::Numbered::has), unfolding(crate::specs::Segment::segment_of))]
pub fn by_number(image: &[u8], number: u32) -> Result<Segment, Refusal>
    ensures { result ≡ segment_of image.now number }
{
    let header = header::read(image)?;
    if header::lacks(header.segments.count, number) {
        return Err(Refusal::NoSuchNumber);
    }
    record(&Module { image, header }, number - 1)
}

// The segment whose record has an index, counted from 0, once the number is known good: refusals 10, 11 and 9.
// As a call it would want the module in memory.
#[inline(always)]
#[tactic(auto, using(crate::proofs::Words::sector_none, crate::proofs::Words::sector_some), unfolding(crate::specs::Segment::record_of, crate::specs::Segment::segment_checks))]
pub fn record(m: &Module, index: u32) -> Result<Segment, Refusal>
    ensures { result ≡ record_of m.now.image.now m.now.header index }
{
    let len = m.image.len();
    let s = fields::read(m, index);
    let flags = s.flags;
    if flags / 0x8 % 2 == 1 {
        return Err(Refusal::Iterated);
    }
    if s.allocation < s.stored {
        return Err(Refusal::AllocationShort);
    }
    let end = s.start + s.stored as usize;
    if len < end {
        return Err(Refusal::SegmentOutside);
    }
    if flags / 0x100 % 2 == 0 {
        return Ok(s);
    }
    if s.stored == 0 {
        return Err(Refusal::SegmentOutside);
    }
    if len < end + 2 || len < s.list + 8 * s.records as usize {
        return Err(Refusal::SegmentOutside);
    }
    Ok(s)
}
