// The lister: reads an image from standard input through a 4 KiB buffer and lists its in-use blocks. It keeps block zero only
// and never looks at tickets. What is printed is decided in `listing`, whole; here is only reading and writing.
#![tactic(auto)]

// Standard input.
const STDIN_FILENO: i32 = 0;

// Standard output.
const STDOUT_FILENO: i32 = 1;

// Reads and counts what follows the first bytes, until the input ends or the count has reached the limit. A buffer that is
// not filled is the end of the input, and so is a read that fails.
fn read_rest(first: usize) -> usize {
    let mut total = first;
    let mut buffer = io::buffer();
    if first < buffer.len() {
        return total;
    }
    while total < listing::limit() {
        let got = io::read_full(STDIN_FILENO, &mut buffer);
        total = listing::counted(total, got);
        if got < buffer.len() {
            return total;
        }
    }
    total
}

fn main() {
    let mut zero = io::buffer();
    let first = io::read_full(STDIN_FILENO, &mut zero);
    let total = read_rest(first);
    let mut out = io::large_buffer();
    let n = listing::text(&zero, total, &mut out);
    io::write_all(STDOUT_FILENO, &out[0..n]);
}
