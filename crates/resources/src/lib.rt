// The resource table: a resource by its number or by its two words, or the refusal (18, 8 or 19, 20).
//
// One walk, block by block, checks the whole table and finds what is asked for on its way.
#![tactic(auto)]

mod block;
mod table;
mod wanted;

ghost use Rattle.std.specs.Prelude.{◌≡◌};
ghost use Rattle.resources.specs.Resource.{resource_by_number, resource_by_words, data_checked};
ghost use Rattle.resources.specs.Internal.{found_of};

use refusal::Refusal;
use wanted::{Named, Numbered, Wanted};

#[derive(Clone, Copy)]
pub struct Resource {
    // Counted from 1 in file order, all types together.
    pub number: usize,
    // The type word of its block. ("type" is a word of the language.)
    pub kind: u16,
    pub id: u16,
    pub flags: u16,
    // The place of its data, counted from the file's start, and how many bytes they are.
    pub at: u32,
    pub len: u32,
}

// The resource of a number.
#[tactic(auto, using(crate::proofs::Answers::by_number))]
pub fn by_number(image: &[u8], number: u32) -> Result<Resource, Refusal>
    ensures { result ≡ resource_by_number image.now number }
{
    let numbered = Numbered {
        number: number as usize,
    };
    let found = search(image, &numbered)?.ok_or(Refusal::NoSuchNumber)?;
    checked(image.len(), found)
}

// The first resource with this type word and this id word.
#[tactic(auto, using(crate::proofs::Answers::by_words))]
pub fn by_words(image: &[u8], kind: u32, id: u32) -> Result<Resource, Refusal>
    ensures { result ≡ resource_by_words image.now kind id }
{
    let named = Named { kind, id };
    let found = search(image, &named)?.ok_or(Refusal::NoSuchResource)?;
    checked(image.len(), found)
}

// What is asked for, in a table that is checked as a whole.
#[tactic(auto, unfolding(crate::specs::Internal::found_of, crate::specs::Resource::resources_of, tables::specs::Query::first_of))]
fn search<W: Wanted>(image: &[u8], wanted: &W) -> Result<Option<Resource>, Refusal>
    ensures { result ≡ found_of image.now (W.takes wanted.now) }
{
    let h = header::read(image)?;
    if h.resources == h.resident {
        return Ok(None);
    }
    let at = h.resources as usize;
    if image.len() < at + 2 {
        return Err(Refusal::ResourceTable);
    }
    let shift = le::word(image, at);
    if 15 < shift {
        return Err(Refusal::ResourceShift);
    }
    table::walk(image, shift, at + 2, wanted)
}

// A resource whose data lie in an image of `len` bytes.
#[tactic(auto, unfolding(crate::specs::Resource::data_checked))]
fn checked(len: usize, r: Resource) -> Result<Resource, Refusal>
    ensures { result ≡ data_checked len r }
{
    if len < r.at as usize + r.len as usize {
        return Err(Refusal::ResourceOutside);
    }
    Ok(r)
}
