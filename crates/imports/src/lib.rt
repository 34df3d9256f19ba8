// Module references, and the strings in the imported names (8, 16).
#![tactic(auto)]

ghost use Rattle.std.specs.Prelude.{◌≡◌};
ghost use Rattle.imports.specs.Module.{string_at, reference_of, module_of};

use header::Module;
use refusal::Refusal;

// A text: the place of its first byte, counted from the file's start, and its length.
#[derive(Clone, Copy)]
pub struct Text {
    pub at: usize,
    pub len: u8,
}

// The name of the module of a number.
#[tactic(auto, unfolding(crate::specs::Module::module_of))]
pub fn by_number(image: &[u8], number: u32) -> Result<Text, Refusal>
    ensures { result ≡ module_of image.now number }
{
    let header = header::read(image)?;
    let m = Module { image, header };
    reference(&m, number)
}

// The string at a place, counted from the imported names, or none where it is unsound: what that means is for its
// reader to say.
#[tactic(auto, unfolding(crate::specs::Module::string_at))]
pub fn string(m: &Module, place: u16) -> Option<Text>
    ensures { result ≡ string_at m.now.image.now m.now.header place }
{
    let at = m.header.imported as usize + place as usize;
    let len = le::byte(m.image, at);
    if len == 0 {
        return None;
    }
    let first = at + 1;
    if m.image.len() < first + len as usize {
        return None;
    }
    Some(Text { at: first, len })
}

// The module of a number once the header is known.
#[tactic(auto, using(header::proofs::Numbered::has), unfolding(crate::specs::Module::reference_of))]
fn reference(m: &Module, number: u32) -> Result<Text, Refusal>
    ensures { result ≡ reference_of m.now.image.now m.now.header number }
{
    if header::lacks(m.header.modules.count, number) {
        return Err(Refusal::NoSuchNumber);
    }
    let index = (number - 1) as usize;
    let place = le::word(m.image, m.header.modules.at as usize + 2 * index);
    string(m, place).ok_or(Refusal::ImportedString)
}
