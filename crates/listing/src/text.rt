// Text written to the front of a slice, as far as the slice goes.
ghost use Rattle.std.specs.Prelude.{◌≡◌, [], ◌∷◌, ◌++◌, ◌<◌, ◌≤◌};
ghost use Rattle.listing.specs.Text.{digit_of, digits_of, decimal_width, decimal_of, hex_of};
ghost use Rattle.listing.specs.Internal.{Writes};

// A slice that is written to from its front on.
#[derive(Drop)]
pub struct Writer<'a> {
    pub out: &'a mut [u8],
    // The length of the text so far, with what did not fit.
    pub len: usize,
}

impl<'a> Writer<'a> {
    // No text yet.
    pub fn new(out: &'a mut [u8]) -> Writer<'a>
        ensures out { result.out ≡ out.entry }
        ensures len { result.len ≡ 0 }
    {
        Writer { out, len: 0 }
    }

    // One byte. The length saturates, so that a caller need not know that it fits.
    fn byte(&mut self, b: u8)
        ensures { Writes self.old (b ∷ []) self.new }
    {
        if self.len < self.out.len() {
            self.out[self.len] = b;
        }
        self.len = self.len.saturating_add(1);
    }

    // All bytes of `s`.
    pub fn ascii(&mut self, s: &[u8])
        ensures { Writes self.old s.now self.new }
    {
        for &b in s {
            self.byte(b);
        }
    }

    // A number in decimal, and a byte after it.
    pub fn decimal(&mut self, n: u32, end: u8)
        ensures { Writes self.old (decimal_of n ++ (end ∷ [])) self.new }
    {
        self.digits::<10>(decimal_width(n), n);
        self.byte(end);
    }

    // The last `width` hexadecimal digits of a number, and a byte after them.
    pub fn hex(&mut self, width: u32, n: u32, end: u8)
        ensures { Writes self.old (hex_of width n ++ (end ∷ [])) self.new }
    {
        self.digits::<16>(width, n);
        self.byte(end);
    }

    // The last `width` digits of a number in a base. The base is a constant, so that no division is left of it.
    fn digits<const BASE: u32>(&mut self, width: u32, n: u32)
        requires some { 0 < BASE }
        requires small { BASE ≤ 16 }
        ensures { Writes self.old (digits_of BASE width n) self.new }
    {
        if width == 0 {
            return;
        }
        self.digits::<BASE>(width - 1, n / BASE);
        self.byte(digit(n % BASE));
    }
}

// How many digits a number has in decimal.
#[tactic(auto, unfolding(crate::specs::Text::decimal_width))]
fn decimal_width(n: u32) -> u32
    ensures { result ≡ decimal_width n }
{
    match n {
        0..=9 => 1,
        10..=99 => 2,
        100..=999 => 3,
        1000..=9999 => 4,
        _ => 5,
    }
}

// A digit up to 15.
#[tactic(auto, unfolding(crate::specs::Text::digit_of))]
fn digit(d: u32) -> u8
    requires { d < 16 }
    ensures { result ≡ digit_of d }
{
    if d < 10 {
        return b'0' + d as u8;
    }
    b'A' + (d - 10) as u8
}
