// Document 01's step of one record: its sites as a buffer tells them, each written there.
#![tactic(auto)]

ghost use Rattle.std.specs.Prelude.{◌≡◌, length};
ghost use Rattle.site.specs.Step.{step_of, step_from};

use refusal::Refusal;
use site::Fixup;

// Carries out what a record asks for. Where that is nothing, or can't be done, the buffer stays as it came.
pub fn carry_out(a: Result<Option<Fixup>, Refusal>, buffer: &mut [u8])
    ensures { buffer.new ≡ step_of a buffer.old }
{
    if let Ok(Some(f)) = a {
        sites(f, buffer);
    }
}

// The sites of a fixup, as many as the buffer has bytes at most, from its site word on. A span past the buffer ends them.
fn sites(f: Fixup, buffer: &mut [u8])
    ensures { buffer.new ≡ step_from (length buffer.old) f f.site buffer.old }
{
    let width = patch::width(f.kind, f.additive) as usize;
    let mut next = f.site;
    for _done in 0..buffer.len() {
        let at = next as usize;
        if buffer.len() < at + width {
            return;
        }
        next = le::word(buffer, at);
        let byte = le::byte(buffer, at);
        patch::put(f, byte, next, buffer, at);
        if f.additive || next == 0xffff {
            return;
        }
    }
}
