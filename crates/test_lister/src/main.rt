// Reads cases from standard input, makes block zero of each in memory, and prints what the lister prints of it: each answer of
// steps 1 to 6, the order of the steps, and accepted images with their in-use blocks. A line of the input is an order, told by
// its first letter, with decimal numbers; `stdin` says at its head which there are. What the paper says of each case stands in
// `stdout`.
#![tactic(auto)]

use chip::Chip;
use mapping::Condition;

// Standard input.
const STDIN_FILENO: i32 = 0;

// Standard output.
const STDOUT_FILENO: i32 = 1;

// Block zero of a chip, as the lines make it.
#[derive(Clone, Copy)]
struct Zero {
    bytes: [u8; Chip::BLOCK],
    kind: Chip,
}

impl Zero {
    // Stores the lowest eight bits of a number, if there is such a place.
    fn set(&mut self, at: usize, b: u32) {
        if let Some(byte) = self.bytes.get_mut(at) {
            let [low, ..] = b.to_le_bytes();
            *byte = low;
        }
    }

    // Stores the sum of the map, low byte first.
    fn seal(&mut self) {
        let end = Chip::map_len(self.kind);
        let sum = crc16::crc16_ninty(&self.bytes[..end]);
        self.bytes[end..end + 2].copy_from_slice(&sum.to_le_bytes());
    }

    // Stores block v's item: on small chips the number comes first, on large ones the count.
    fn put_item(&mut self, condition: Condition, v: u32, number: u32, count: u32) {
        let used = if condition.is_free() {
            0
        } else {
            u32::from(Chip::IN_USE)
        };
        let (head, next) = if Chip::is_large(self.kind) {
            (count, number)
        } else {
            (number, count)
        };
        let at = Chip::HEADER + v as usize * Chip::item_len(self.kind);
        self.set(at, used | head);
        self.set(at + 1, next);
    }

    // Stores byte i of a slot.
    fn set_slot(&mut self, slot: u32, i: u32, b: u32) {
        let at = Chip::journal_start(self.kind) + slot as usize * Chip::SLOT;
        self.set(at + i as usize, b);
    }

    // Stores an entry with tickets of zero, twice: a[1] is the slot, and v, w, p, q, c and d follow.
    fn put_entry(&mut self, a: [u32; 8]) {
        let slot = a[1];
        for i in 0..14 {
            let b = if i < 6 { a[i + 2] } else { 0 };
            self.set_slot(slot, i as u32, b);
            self.set_slot(slot, i as u32 + 14, b);
        }
    }

    // Stores entries in the first n slots with which block 0 goes to and fro between two physical blocks.
    fn put_moves(&mut self, n: u32) {
        let last = Chip::virtual_blocks(self.kind) as u32;
        for k in 0..n {
            let (to, from) = if k % 2 == 0 { (last, 1) } else { (1, last) };
            self.put_entry([0, k, 0, last - 1, to, from, k / 2 + 1, k.div_ceil(2)]);
        }
    }

    // `format LENGTH`: anew, for the chip of that length where there is one.
    fn format(&mut self, len: usize) {
        self.kind = Chip::from_len(len).unwrap_or(self.kind);
        block_zero::format_zero(&mut self.bytes, self.kind);
    }

    // `list LENGTH NAME`: prints the line, and what the lister prints for an input of that length.
    fn list(&self, total: usize, line: &[u8]) {
        let mut out = io::large_buffer();
        let n = listing::text(&self.bytes, total, &mut out);
        io::write_all(STDOUT_FILENO, line);
        io::write_all(STDOUT_FILENO, b"\n");
        io::write_all(STDOUT_FILENO, &out[0..n]);
    }

    // Does what a line says.
    fn obey(&mut self, line: &[u8]) {
        let Some(letter) = line.first().copied() else {
            return;
        };
        let a = numbers(line);
        match letter {
            b'f' => self.format(a[1] as usize),
            b'l' => self.list(a[1] as usize, line),
            b'b' => self.set(a[1] as usize, a[2]),
            b't' => self.set_slot(a[1], a[2], a[3]),
            b's' => self.seal(),
            b'i' => self.put_item(Condition::Free, a[1], a[2], a[3]),
            b'u' => self.put_item(Condition::Clean, a[1], a[2], a[3]),
            b'e' => self.put_entry(a),
            b'm' => self.put_moves(a[1]),
            _ => {}
        }
    }
}

// A number with one more digit; a letter changes nothing.
fn with_digit(n: u32, b: u8) -> u32 {
    match b {
        b'0'..=b'9' => n % 0x1000000 * 10 + u32::from(b - b'0'),
        _ => n,
    }
}

// The numbers of a line, one for each of its first eight words; 0 for a word of letters.
fn numbers(line: &[u8]) -> [u32; 8] {
    let mut a = [0u32; 8];
    for (n, word) in a.iter_mut().zip(line.splitn(8, |b| *b == b' ')) {
        for b in word {
            *n = with_digit(*n, *b);
        }
    }
    a
}

fn main() {
    let mut input = io::large_buffer();
    let n = io::read_full(STDIN_FILENO, &mut input);
    let bytes = io::buffer();
    let mut zero = Zero {
        bytes,
        kind: Chip::Kib128,
    };
    for line in input[..n].split(|b| *b == b'\n') {
        zero.obey(line);
    }
}
