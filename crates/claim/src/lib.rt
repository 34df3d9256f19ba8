// Marks: a byte for each byte of a segment, which is not 0 where a span has the byte. A span is claimed in them.
#![tactic(auto)]

ghost use Rattle.std.specs.Prelude.{◌≡◌, cond, not, ◌==◌, replicate, length, MatchResult};
ghost use Rattle.std.specs.List.{list_any};
ghost use Rattle.claim.specs.Internal.{claim_of, marks_after};

use le::inside::{dword, word};
use refusal::Refusal;

// Claims the span of `width` bytes from the place `at` on: its bytes are marked, unless it is refused. The widths that most
// spans have are written out, so that the compiler knows how many bytes it goes over.
pub fn span(marks: &mut [u8], at: u32, width: u8) -> Result<(), Refusal>
    ensures is { result ≡ claim_of marks.old at width }
    ensures left { marks.new ≡ marks_after result marks.old at width }
{
    let start = at as usize;
    let end = start + width as usize;
    if marks.len() < end {
        return Err(Refusal::SpanOutside);
    }
    match width {
        2 => all(&mut marks[start..start + 2]),
        4 => all(&mut marks[start..start + 4]),
        _ => all(&mut marks[start..end]),
    }
}

// Claims all of these bytes.
#[inline(always)]
fn all(bytes: &mut [u8]) -> Result<(), Refusal>
    ensures is { result ≡ cond (list_any (λ mark. not (mark == 0)) bytes.old) (Err Refusal.SpanTaken) (Ok tt) }
    ensures left { MatchResult result (λ done. bytes.new ≡ replicate (length bytes.old) 1) (λ why. bytes.new ≡ bytes.old) }
{
    if taken(bytes) {
        return Err(Refusal::SpanTaken);
    }
    bytes.fill(1);
    Ok(())
}

// Whether one of these bytes is marked. Words and pairs of words are looked at as one number each.
#[inline(always)]
#[tactic(auto, using(crate::proofs::Spans::any_number))]
fn taken(bytes: &[u8]) -> bool
    ensures { result ≡ list_any (λ mark. not (mark == 0)) bytes.now }
{
    match bytes.len() {
        2 => word(bytes, 0) != 0,
        4 => dword(bytes, 0) != 0,
        _ => bytes.iter().any(|mark| *mark != 0),
    }
}
