// The resident and nonresident names: a name by its number or by its bytes, or the refusal (16, 8 or 17).
//
// One walk checks a whole list and finds what is asked for on its way.
#![tactic(auto)]

mod list;
mod text;
mod wanted;

ghost use Rattle.std.specs.Prelude.{◌≡◌, ◌<◌, ◌^◌};
ghost use Rattle.names.specs.Names.{name_by_number, name_by_bytes};
ghost use Rattle.names.specs.Internal.{found_of, found_after};

use header::Module;
use list::Extent;
use refusal::Refusal;
use wanted::{Numbered, Spelled, Wanted};

#[derive(Clone, Copy)]
pub struct Name {
    // Counted from 1, the resident list first.
    pub number: usize,
    // The place of its text, counted from the file's start, and the text's length.
    pub at: usize,
    pub len: u8,
    pub ordinal: u16,
}

// How far a search has come: how many names it has passed, and what was found among them.
#[derive(Clone, Copy)]
struct Progress {
    pub used: usize,
    pub found: Option<Name>,
}

// The name of a number.
#[tactic(auto, using(crate::proofs::Answers::by_number))]
pub fn by_number(image: &[u8], number: u32) -> Result<Name, Refusal>
    ensures { result ≡ name_by_number image.now number }
{
    let numbered = Numbered {
        number: number as usize,
    };
    search(image, &numbered)?.ok_or(Refusal::NoSuchNumber)
}

// The first name with exactly these bytes.
#[tactic(auto, using(crate::proofs::Answers::by_bytes))]
pub fn by_bytes(image: &[u8], name: &[u8]) -> Result<Name, Refusal>
    ensures { result ≡ name_by_bytes image.now name.now }
{
    let spelled = Spelled { image, text: name };
    search(image, &spelled)?.ok_or(Refusal::NoSuchName)
}

// What is asked for: in the resident list, which ends inside the image, and then in the nonresident one.
#[tactic(auto, unfolding(crate::specs::Internal::found_of))]
fn search<W: Wanted>(image: &[u8], wanted: &W) -> Result<Option<Name>, Refusal>
    ensures { result ≡ found_of image.now (W.takes wanted.now) }
{
    let header = header::read(image)?;
    let m = Module { image, header };
    let resident = Extent {
        at: header.resident as usize,
        limit: image.len(),
        why: Refusal::ResidentNames,
    };
    let start = Progress {
        used: 0,
        found: None,
    };
    let p = list::walk(image, resident, start, wanted)?;
    in_nonresident(&m, p, wanted)
}

// The nonresident list, which ends inside its byte count, after what the resident list gave.
#[tactic(auto, unfolding(crate::specs::Internal::found_after, tables::specs::Query::first_of))]
fn in_nonresident<W: Wanted>(m: &Module, p: Progress, wanted: &W) -> Result<Option<Name>, Refusal>
    requires { p.used < 2 ^ 63 }
    ensures { result ≡ found_after m.now.image.now m.now.header p (W.takes wanted.now) }
{
    let size = m.header.nonresident.count;
    if size == 0 {
        return Ok(p.found);
    }
    let at = m.header.nonresident.at as usize;
    let nonresident = Extent {
        at,
        limit: at + size as usize,
        why: Refusal::NonresidentNames,
    };
    let all = list::walk(m.image, nonresident, p, wanted)?;
    Ok(all.found)
}
