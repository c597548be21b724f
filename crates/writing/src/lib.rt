// Bytes that are written behind others into a slice that is lent.
#![tactic(auto)]

ghost use Rattle.std.specs.Prelude.{◌+◌, ◌≤◌, length};
ghost use Rattle.writing.specs.Writing.{Wrote};

// Writes src into out from at on, and says where it ends.
#[tactic(auto, using(std::proofs::lemmas::Slice::overwrites))]
pub fn push(out: &mut [u8], at: usize, src: &[u8]) -> usize
    requires { at + length src.now ≤ length out.old }
    ensures { Wrote out.old at src.now result out.new }
{
    let end = at + src.len();
    out[at..end].copy_from_slice(src);
    end
}
