// The one copy and the one clear of a slice, and its parts.
ghost use Rattle.std.specs.Prelude.{◌≡◌, length, take, drop};
ghost use Rattle.le.specs.Slice.{copied, zeros};

// Copies `src` over the front of `dst`, as many bytes as both have. The rest of `dst` stays as it came. std's
// copy of a slice is a call of memmove, which the library does without.
pub fn copy(src: &[u8], dst: &mut [u8])
    ensures { dst.new ≡ copied src.now dst.old }
{
    let n = src.len().min(dst.len());
    for i in 0..n {
        dst[i] = src[i];
    }
}

// Sets every byte of `dst` to 0.
pub fn clear(dst: &mut [u8])
    ensures { dst.new ≡ zeros (length dst.old) }
{
    dst.fill(0);
}

// The bytes of `s` from the place `at` on: none where it lies past the end.
pub fn from(s: &[u8], at: usize) -> &[u8]
    ensures { result.now ≡ drop at s.now }
{
    &s[at.min(s.len())..]
}

// The first `n` bytes of `s`, or all where it has fewer.
pub fn first(s: &[u8], n: usize) -> &[u8]
    ensures { result.now ≡ take n s.now }
{
    &s[..n.min(s.len())]
}
