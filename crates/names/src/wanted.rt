// What can be asked for: the name of a number, or the first one with some bytes.
ghost use Rattle.std.specs.Prelude.{◌≡◌, ℕ, Bool};
ghost use Rattle.names.specs.declared.Name.{Name};
ghost use Rattle.names.specs.Internal.{has_number, has_bytes};

use crate::{Name, text};

pub trait Wanted {
    // Whether a name is asked for, in a list whose first name has the number that is given before it.
    ghost takes: { Self → ℕ → Name → Bool };

    fn takes(&self, first: usize, n: Name) -> bool
        ensures { result ≡ takes self.now first n };
}

#[derive(Clone, Copy)]
pub struct Numbered {
    pub number: usize,
}

impl Wanted for Numbered {
    ghost takes = { λ w. has_number w.number };

    fn takes(&self, first: usize, n: Name) -> bool {
        n.number == self.number
    }
}

// The bytes of a text, in the image whose names are looked at.
#[derive(Clone, Copy)]
pub struct Spelled<'a> {
    pub image: &'a [u8],
    pub text: &'a [u8],
}

impl<'a> Wanted for Spelled<'a> {
    ghost takes = { λ w. has_bytes w.image.now w.text.now };

    // The first name of a list isn't found by its bytes.
    fn takes(&self, first: usize, n: Name) -> bool {
        if n.number == first {
            return false;
        }
        let text = le::slice::first(le::slice::from(self.image, n.at), n.len as usize);
        text::same(text, self.text)
    }
}
