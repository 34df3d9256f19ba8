// The sites of a fixup, one after the other.
ghost use Rattle.std.specs.Prelude.{◌≡◌, List, ℕ, ◌+◌, ◌≤◌, length};
ghost use Rattle.site.specs.Site.{width_of};
ghost use Rattle.follow.specs.Internal.{passed, pass_of, pass_from, SameSize, fuel, after_site, claimed_pass, Going};

use refusal::Refusal;
use site::Fixup;

// All sites of a fixup, from its site word on, after `done` earlier ones: how many there are then.
pub fn all(
    stored: &[u8],
    f: Fixup,
    done: u32,
    marks: &mut [u8],
    bytes: &mut [u8],
) -> Result<u32, Refusal>
    requires { SameSize stored.now marks.old bytes.old }
    ensures { passed result marks.new bytes.new ≡ pass_of stored.now f done marks.old bytes.old }
{
    let width = patch::width(f.kind, f.additive);
    let mut at = f.site;
    let mut count = done;
    while let Some(next) = one(stored, f, width, at, count, marks, bytes)? {
        at = next;
        count += 1;
    }
    Ok(count + 1)
}

// One site: 24 and 25. The place of the next one, if it is not the last of its record. The width of its span is the same at
// each site, and is computed before the first.
#[tactic(auto, using(crate::proofs::Pass::refused, crate::proofs::Pass::inside, crate::proofs::Pass::free))]
fn one(
    stored: &[u8],
    f: Fixup,
    width: u8,
    at: u16,
    done: u32,
    marks: &mut [u8],
    bytes: &mut [u8],
) -> Result<Option<u16>, Refusal>
    requires same_size { SameSize stored.now marks.old bytes.old }
    requires wide { width ≡ width_of f.kind f.additive }
    ensures is { after_site stored.now f done result marks.new bytes.new ≡ pass_from (fuel done) stored.now f at done marks.old bytes.old }
    ensures going { Going done result }
{
    claim::span(marks, at as u32, width)?;
    claimed(stored, f, at, done, bytes)
}

// A site whose span is claimed: 26, or it is written and tells the next. A chained span has two bytes at least, so that its
// word needs no test.
fn claimed(
    stored: &[u8],
    f: Fixup,
    at: u16,
    done: u32,
    bytes: &mut [u8],
) -> Result<Option<u16>, Refusal>
    requires inside { at + width_of f.kind f.additive ≤ length stored.now }
    requires same_size { length bytes.old ≡ length stored.now }
    ensures is { (marks : List ℕ) → after_site stored.now f done result marks bytes.new ≡ claimed_pass (fuel done) stored.now f at done marks bytes.old }
    ensures going { Going done result }
{
    if 65536 <= done {
        return Err(Refusal::SitesOver);
    }
    let place = at as usize;
    let byte = stored[place];
    if f.additive {
        patch::put(f, byte, le::word(stored, place), bytes, place);
        return Ok(None);
    }
    let word = le::inside::word(stored, place);
    patch::put(f, byte, word, bytes, place);
    if word == 0xffff {
        return Ok(None);
    }
    Ok(Some(word))
}
