// Writes a sample for the lister: `sample image` writes to standard output a formatted 128 KiB image with case E's entry in
// the first slot of its journal. Without that word it prints how to use it, and no image.
#![tactic(auto)]

ghost use Rattle.std.specs.Prelude.{◌+◌, ◌≤◌, length};

use chip::Chip;
use std::env::Env;

// Standard output.
const STDOUT_FILENO: i32 = 1;

// Whether the first argument is `image`.
fn asked(env: &impl Env) -> bool {
    let mut word = io::buffer();
    let Ok(n) = env.arg(1, &mut word) else {
        return false;
    };
    word.get(..n) == Some(b"image".as_slice())
}

// Stores an entry.
fn put(zero: &mut [u8], at: usize, entry: &[u8])
    requires { at + length entry.now ≤ length zero.old }
{
    let end = at + entry.len();
    zero[at..end].copy_from_slice(entry);
}

// Block zero: v 0, w 30, p 31, q 1, c 1, d 0 and eight tickets of zero, twice, in slot 0.
fn write_zero() {
    let mut zero = io::buffer();
    block_zero::format_zero(&mut zero, Chip::Kib128);
    let at = Chip::journal_start(Chip::Kib128);
    let entry = [0u8, 30, 31, 1, 1, 0, 0, 0, 0, 0, 0, 0, 0, 0];
    put(&mut zero, at, &entry);
    put(&mut zero, at + entry.len(), &entry);
    io::write_all(STDOUT_FILENO, &zero);
}

// The data blocks.
fn write_blocks() {
    let zeros = io::buffer();
    let n = Chip::physical_blocks(Chip::Kib128);
    for _ in 1..n {
        io::write_all(STDOUT_FILENO, &zeros);
    }
}

fn main(rt: HostRuntime) {
    if !asked(&rt) {
        let _ = println!(rt; "usage: sample image > FILE");
        return;
    }
    write_zero();
    write_blocks();
}
