// The walk's step: the bundle at a place, with its checks in document 01's order.
ghost use Rattle.std.specs.Prelude.{◌≡◌, ◌+◌, ◌*◌, ◌≤◌, ◌<◌, length, IfOk, IfSome};
ghost use Rattle.bundle.specs.Bundle.{width_of, kind_of, entry_unsound, unsound_from, step_of};
ghost use Rattle.bundle.specs.Internal.{head_of, Went};

use crate::{Bundle, Head, Kind, width};
use refusal::Refusal;

// What a segment byte says.
#[tactic(auto, unfolding(crate::specs::Bundle::kind_of))]
pub fn kind_of(segment: u8) -> Kind
    ensures { result ≡ kind_of segment }
{
    match segment {
        0 => Kind::Null,
        255 => Kind::Movable,
        1..=254 => Kind::Fixed(segment),
    }
}

// The head of the bundle at a place of the table, for whoever knows that the table is sound: nothing is checked.
#[tactic(auto, unfolding(crate::specs::Internal::head_of))]
pub fn head_at(table: &[u8], at: usize) -> Head
    ensures is { result ≡ head_of table.now at }
    ensures inside { 0 < result.count → at < length table.now }
{
    if table.len() <= at {
        return Head {
            count: 0,
            segment: 0,
        };
    }
    Head {
        count: le::byte(table, at) as u32,
        segment: le::byte(table, at + 1),
    }
}

// The bundle at a place of the table, or none where its end stands there. `used` ordinals come before it, and the module
// has this many segments. A call would hand its answer over through memory, which takes as long as the step itself.
#[inline(always)]
#[tactic(auto, unfolding(crate::specs::Bundle::step_of, crate::specs::Bundle::bundle_at, crate::specs::Bundle::bundle_checks))]
pub fn next(table: &[u8], segments: u32, at: usize, used: u32) -> Result<Option<Bundle>, Refusal>
    ensures is { result ≡ step_of table.now segments at used }
    ensures went { IfOk result (λ next. IfSome next (λ b. Went table.now at used b)) }
{
    let len = table.len();
    if len == 0 {
        return Ok(None);
    }
    if len <= at {
        return Err(Refusal::EntryTableEnds);
    }
    let count = table[at] as usize;
    if count == 0 {
        return Ok(None);
    }
    let first = at + 2;
    if len < first {
        return Err(Refusal::EntryTableEnds);
    }
    if 65535 < used as usize + count {
        return Err(Refusal::OrdinalsOver);
    }
    let kind = kind_of(table[at + 1]);
    let end = first + width(kind) * count;
    if len < end {
        return Err(Refusal::EntryTableEnds);
    }
    if unsound(table, segments, kind, first, count) {
        return Err(Refusal::EntryUnsound);
    }
    Ok(Some(Bundle {
        used,
        count: count as u32,
        kind,
        at: first,
        end,
    }))
}

// Whether one of `count` entries from a place on is unsound.
#[tactic(auto, using(crate::proofs::Rest::unsound_rest, crate::proofs::Rest::unsound_none))]
fn unsound(table: &[u8], segments: u32, kind: Kind, at: usize, count: usize) -> bool
    requires { at + width_of kind * count ≤ length table.now }
    ensures { result ≡ unsound_from count table.now segments kind at }
{
    for index in 0..count {
        let place = at + width(kind) * index;
        if entry_unsound(segments, kind, le::slice::from(table, place)) {
            return true;
        }
    }
    false
}

// Whether the entry that starts at the first byte of `e` is unsound.
fn entry_unsound(segments: u32, kind: Kind, e: &[u8]) -> bool
    ensures { result ≡ entry_unsound segments kind e.now }
{
    match kind {
        Kind::Null => false,
        Kind::Fixed(segment) => header::lacks(segments, segment as u32),
        Kind::Movable => le::word(e, 1) != 0x3fcd || header::lacks(segments, le::byte(e, 3) as u32),
    }
}
