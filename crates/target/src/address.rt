// What a record asks for, once its target is known.
ghost use Rattle.std.specs.Prelude.{◌≡◌, ◌/◌, ◌%◌, ◌<◌};
ghost use Rattle.target.specs.Internal.{Counted};
ghost use Rattle.fixup.specs.declared.Target.TheVariants.{Segment};
ghost use Rattle.fixup.specs.Action.{fixup_to, to_target};

use fixup::{Record, Target};
use refusal::Refusal;
use site::{Fixup, Kind};

// A fixup to the target's address, or nothing for an OS fixup.
pub fn to_target(
    selectors: &[u16],
    answer: u32,
    r: Record,
    kind: Kind,
    target: Target,
) -> Result<Option<Fixup>, Refusal>
    requires { Counted target }
    ensures { result ≡ to_target selectors.now answer r kind target }
{
    match target {
        Target::Segment(segment, offset) => in_segment(selectors, r, kind, segment, offset),
        Target::Import => Ok(Some(import(r, kind, answer))),
        Target::Os => Ok(None),
    }
}

// A fixup to a place in a segment. Segments count from 1.
fn in_segment(
    selectors: &[u16],
    r: Record,
    kind: Kind,
    segment: u8,
    offset: u16,
) -> Result<Option<Fixup>, Refusal>
    requires { 0 < segment }
    ensures { result ≡ to_target selectors.now 0 r kind (Segment segment offset) }
{
    let number = segment as usize;
    if selectors.len() < number {
        return Err(Refusal::TargetSegment);
    }
    Ok(Some(fixup(kind, r, offset, selectors[number - 1])))
}

// A fixup to an import: its answer has the offset in the low word and the selector in the high word.
fn import(r: Record, kind: Kind, answer: u32) -> Fixup
    ensures { result ≡ fixup_to kind r (answer % 65536) (answer / 65536) }
{
    let offset = (answer % 65536) as u16;
    let selector = (answer / 65536) as u16;
    fixup(kind, r, offset, selector)
}

// A fixup to an address.
fn fixup(kind: Kind, r: Record, offset: u16, selector: u16) -> Fixup
    ensures { result ≡ fixup_to kind r offset selector }
{
    Fixup {
        kind,
        additive: r.flags / 4 == 1,
        site: r.site,
        offset,
        selector,
    }
}
