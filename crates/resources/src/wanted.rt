// What can be asked for: the resource of a number, or the first one with a type word and an id word.
ghost use Rattle.std.specs.Prelude.{◌≡◌, Bool};
ghost use Rattle.resources.specs.declared.Resource.{Resource};
ghost use Rattle.resources.specs.Resource.{has_kind_and_id};
ghost use Rattle.resources.specs.Internal.{first_in, has_number};

use crate::Resource;
use crate::block::Resources;

pub trait Wanted {
    // Whether a resource is asked for.
    ghost takes: { Self → Resource → Bool };

    // The first resource of a block that is asked for.
    fn first(&self, rs: &Resources) -> Option<Resource>
        ensures { result ≡ first_in (takes self.now) rs.now.image.now rs.now.block };
}

#[derive(Clone, Copy)]
pub struct Numbered {
    pub number: usize,
}

impl Wanted for Numbered {
    ghost takes = { λ w. has_number w.number };

    fn first(&self, rs: &Resources) -> Option<Resource> {
        rs.of_number(self.number)
    }
}

#[derive(Clone, Copy)]
pub struct Named {
    pub kind: u32,
    pub id: u32,
}

impl Wanted for Named {
    ghost takes = { λ w. has_kind_and_id w.kind w.id };

    fn first(&self, rs: &Resources) -> Option<Resource> {
        rs.of_words(self.kind, self.id)
    }
}
