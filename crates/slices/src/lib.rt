// A part of one lent slice copied into another, as a splice. An inner crate: `copy` asks that both parts are there.
#![tactic(auto)]

ghost use Rattle.std.specs.Prelude.{◌≡◌, ◌+◌, ◌≤◌, length};
ghost use Rattle.std.proofs.Math.Seq.{slice};
ghost use Rattle.lists.specs.Words.{splice};

// Stores n bytes of src, those from `from` on, in dst from `at` on.
pub fn copy(dst: &mut [u8], at: usize, src: &[u8], from: usize, n: usize)
    requires { (at + n ≤ length dst.old) × (from + n ≤ length src.now) }
    ensures { dst.new ≡ splice dst.old at (slice from (from + n) src.now) }
{
    let to = at + n;
    let end = from + n;
    dst[at..to].copy_from_slice(&src[from..end]);
}
