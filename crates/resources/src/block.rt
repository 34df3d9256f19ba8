// One block of the table, all of one type: its resources, and the searches in it.
ghost use Rattle.std.specs.Prelude.{◌≡◌, ◌*◌, ◌≤◌, ◌<◌, ◌^◌};
ghost use Rattle.resources.specs.Resource.{resource_at, has_kind_and_id, high_bit};
ghost use Rattle.resources.specs.Internal.{Whole, first_in, has_number, has_id};

use crate::Resource;
use le::inside::word;

#[derive(Clone, Copy)]
pub struct Block {
    pub kind: u16,
    // The shift of the table's offsets and lengths.
    pub shift: u16,
    // How many resources there are in the blocks before it.
    pub used: usize,
    // The place of its first resource, and how many it has.
    pub at: usize,
    pub count: usize,
}

// The resources of a block that lies in the image.
#[derive(Clone, Copy)]
pub struct Resources<'a> {
    pub image: &'a [u8],
    pub block: Block,
    ghost whole: { Whole image.now block },
}

impl<'a> Resources<'a> {
    // The resource of a number: its place follows from the number.
    #[tactic(auto, using(crate::proofs::InBlock::of_number))]
    pub fn of_number(&self, number: usize) -> Option<Resource>
        ensures { result ≡ first_in (has_number number) self.now.image.now self.now.block }
    {
        let b = self.block;
        if number <= b.used {
            return None;
        }
        let index = number - 1 - b.used;
        if b.count <= index {
            return None;
        }
        Some(self.read(index))
    }

    // The first resource with these words.
    #[tactic(auto, using(crate::proofs::InBlock::of_words))]
    pub fn of_words(&self, kind: u32, id: u32) -> Option<Resource>
        ensures { result ≡ first_in (has_kind_and_id kind id) self.now.image.now self.now.block }
    {
        if !high_bit(kind) {
            return None;
        }
        if !high_bit(id) {
            return None;
        }
        if self.block.kind as u32 != kind {
            return None;
        }
        self.of_id(id)
    }

    // The first resource with this id word.
    #[tactic(auto, using(crate::proofs::InBlock::of_id))]
    fn of_id(&self, id: u32) -> Option<Resource>
        ensures { result ≡ first_in (has_id id) self.now.image.now self.now.block }
    {
        for index in 0..self.block.count {
            let r = self.read(index);
            if r.id as u32 == id {
                return Some(r);
            }
        }
        None
    }

    // The resource of an index, counted from 0.
    #[tactic(auto, unfolding(crate::specs::Resource::resource_at))]
    fn read(&self, index: usize) -> Resource
        requires { index < self.now.block.count }
        ensures { result ≡ resource_at self.now.image.now self.now.block index }
    {
        let image = self.image;
        let b = self.block;
        let at = b.at + 12 * index;
        Resource {
            number: b.used + index + 1,
            kind: b.kind,
            id: word(image, at + 6),
            flags: word(image, at + 4),
            at: shifted(word(image, at), b.shift),
            len: shifted(word(image, at + 2), b.shift),
        }
    }
}

// Whether a number is a word with the high bit set.
fn high_bit(word: u32) -> bool
    ensures { result ≡ high_bit word }
{
    word / 0x8000 == 1
}

// A word times 2 to the shift.
fn shifted(word: u16, shift: u16) -> u32
    requires { shift ≤ 15 }
    ensures { result ≡ word * 2 ^ shift }
{
    (word as u32) << shift
}
