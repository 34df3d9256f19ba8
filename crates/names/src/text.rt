// Comparing two strings.
ghost use Rattle.std.specs.Prelude.{◌≡◌};
ghost use Rattle.names.specs.Text.{same};

// Whether two strings have the same bytes. Strings of different lengths are not compared. Most names are short, and on them
// `==`, which compares many bytes at once, takes half as long again.
#[tactic(auto, using(crate::proofs::SameText::lengths_differ, crate::proofs::SameText::one_byte, crate::proofs::SameText::equal_byte, crate::proofs::SameText::none_left))]
pub fn same(a: &[u8], b: &[u8]) -> bool
    ensures { result ≡ same a.now b.now }
{
    if a.len() != b.len() {
        return false;
    }
    for i in 0..a.len() {
        if a[i] != b[i] {
            return false;
        }
    }
    true
}
