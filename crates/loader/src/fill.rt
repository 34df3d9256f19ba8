// A segment's bytes in the output.
ghost use Rattle.std.specs.Prelude.{◌≡◌, ◌++◌, ◌≤◌, length, drop};
ghost use Rattle.site.specs.Prepared.{unfixed};

// Writes these bytes and zeros up to the allocation.
pub fn output(bytes: &[u8], allocation: usize, output: &mut [u8])
    requires { (length bytes.now ≤ allocation) × (allocation ≤ length output.old) }
    ensures { output.new ≡ unfixed bytes.now allocation ++ drop allocation output.old }
{
    le::slice::copy(bytes, output);
    let end = bytes.len();
    le::slice::clear(&mut output[end..allocation]);
}
