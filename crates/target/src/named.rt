// What a record's target words name (23 where that is nothing).
ghost use Rattle.std.specs.Prelude.{◌≡◌};
ghost use Rattle.target.specs.Internal.{Finds};
ghost use Rattle.fixup.specs.Target.{internal_target, target_of};

use bundle::Entry;
use fixup::{Record, Target};
use header::Module;
use refusal::Refusal;

// The target of a record. `find` says what an ordinal stands for.
#[tactic(auto, unfolding(fixup::specs::Target::target_of))]
pub fn target<F: FnOnce(u32) -> Result<Entry, Refusal>>(
    m: &Module,
    r: Record,
    find: F,
) -> Result<Target, Refusal>
    requires { Finds (F.pre find) (F.post find) m.now.image.now m.now.header r.last }
    ensures { result ≡ target_of m.now.image.now m.now.header r }
{
    let how = r.flags % 4;
    if how == 0 {
        return internal(m, r, find);
    }
    if how == 3 {
        return Ok(Target::Os);
    }
    if header::lacks(m.header.modules.count, r.first as u32) {
        return Err(Refusal::TargetModule);
    }
    if how == 2 {
        imports::string(m, r.last).ok_or(Refusal::TargetString)?;
    }
    Ok(Target::Import)
}

// A place in a segment of the module: that of an ordinal's entry, or in the segment that the first target byte names.
#[tactic(auto, unfolding(fixup::specs::Target::internal_target))]
fn internal<F: FnOnce(u32) -> Result<Entry, Refusal>>(
    m: &Module,
    r: Record,
    find: F,
) -> Result<Target, Refusal>
    requires { Finds (F.pre find) (F.post find) m.now.image.now m.now.header r.last }
    ensures { result ≡ internal_target m.now.image.now m.now.header r }
{
    let segment = (r.first % 256) as u8;
    if segment == 255 {
        return match find(r.last as u32) {
            Ok(entry) => Ok(Target::Segment(entry.segment, entry.offset)),
            Err(_) => Err(Refusal::TargetOrdinal),
        };
    }
    if header::lacks(m.header.segments.count, segment as u32) {
        return Err(Refusal::TargetSegment);
    }
    Ok(Target::Segment(segment, r.last))
}
