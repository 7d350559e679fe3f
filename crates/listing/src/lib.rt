// What the lister prints, decided on slices and numbers: the program itself only reads and writes.
#![tactic(auto)]

ghost use Rattle.std.specs.Prelude.{◌≡◌, ◌++◌, ◌+◌, ◌*◌, ◌<◌, ◌≤◌, length};
ghost use Rattle.chip.specs.Figures.{records};
ghost use Rattle.listing.specs.Lines.{limit, counted_of, report_of, most_digits, decimal, first_lines, block_line, block_lines, lines_of, list_of, text_of, line_room, room, Written, Grew};

use answers::Answer;
use chip::Chip;
use mapping::{Block, Mapping, Outcome, Virtual};

// The count at which reading stops: one past the largest chip.
pub fn limit() -> usize
    ensures { result ≡ limit }
{
    Chip::image_len(Chip::Mib1) + 1
}

// The count of bytes after `more` have come.
pub fn counted(total: usize, more: usize) -> usize
    ensures { result ≡ counted_of total more }
{
    let most = limit();
    if most < total {
        return most;
    }
    if more <= most - total {
        return total + more;
    }
    most
}

// Steps 1 to 6 for an input of `len` bytes that began with `zero`.
#[tactic(auto, unfolding(crate::specs::Lines::report_of))]
fn report(zero: &[u8], len: usize) -> Outcome
    ensures { result ≡ report_of zero.now len }
{
    let Some(zero) = zero.as_array() else {
        return Outcome::refused(Answer::WrongLength);
    };
    Outcome::from(journal::open_map(zero, len))
}

// How many blocks may have a line; none after a refusal.
#[tactic(auto, unfolding(crate::specs::Lines::lines_of))]
fn lines(m: Mapping) -> usize
    ensures value { result ≡ lines_of m }
    ensures within { result < records }
{
    Chip::from_len(m.image_len()).map_or(0, Chip::virtual_blocks)
}

// The text that grows in a lent buffer: `at` is where it ends.
#[derive(Drop)]
struct Writer<'a> {
    out: &'a mut [u8],
    at: usize,
}

impl Writer<'_> {
    // Puts a word behind the text.
    fn word(&mut self, word: &[u8])
        requires { self.old.at + length word.now ≤ length self.old.out.now }
        ensures grown { Grew self.old word.now self.new }
    {
        let end = self.at + word.len();
        self.out[self.at..end].copy_from_slice(word);
        self.at = end;
    }

    // A number in decimal.
    fn number(&mut self, n: usize)
        requires { self.old.at + most_digits ≤ length self.old.out.now }
        ensures grown { Grew self.old (decimal n) self.new }
        ensures within { self.new.at ≤ self.old.at + most_digits }
    {
        let mut digits = [0u8; 20];
        let k = io::decimal(n as u64, &mut digits);
        self.word(&digits[0..k]);
    }

    // A word and a number.
    fn field(&mut self, name: &[u8], n: usize)
        requires { self.old.at + length name.now + most_digits ≤ length self.old.out.now }
        ensures grown { Grew self.old (name.now ++ decimal n) self.new }
        ensures within { self.new.at ≤ self.old.at + length name.now + most_digits }
    {
        self.word(name);
        self.number(n);
    }

    // The two lines that come first.
    fn first_lines(&mut self, total: usize, answer: Answer)
        requires { self.old.at + line_room ≤ length self.old.out.now }
        ensures grown { Grew self.old (first_lines total answer) self.new }
        ensures within { self.new.at ≤ self.old.at + line_room }
    {
        self.field(b"length ", total);
        self.field(b"\nanswer ", answer.number() as usize);
        self.field(b" place ", answer.place());
        self.word(b"\n");
    }

    // The line of a block; none where it is free.
    fn block(&mut self, v: Virtual, b: Block)
        requires { self.old.at + line_room ≤ length self.old.out.now }
        ensures grown { Grew self.old (block_line v.0 b) self.new }
        ensures within { self.new.at ≤ self.old.at + line_room }
    {
        if b.condition.is_free() {
            return;
        }
        self.field(b"block ", v.0 as usize);
        self.field(b" physical ", b.physical.0 as usize);
        self.field(b" count ", b.count as usize);
        self.word(b"\n");
    }

    // The lines of the first n blocks, going up.
    fn blocks(&mut self, m: Mapping, n: usize)
        requires { (n < records) × (self.old.at + n * line_room ≤ length self.old.out.now) }
        ensures grown { Grew self.old (block_lines m n) self.new }
        ensures within { self.new.at ≤ self.old.at + n * line_room }
    {
        for v in 0..n {
            self.block(Virtual(v as u8), m.blocks[v]);
        }
    }

    // The lines that follow an accepted image.
    fn list(&mut self, m: Mapping)
        requires { self.old.at + records * line_room + line_room ≤ length self.old.out.now }
        ensures grown { Grew self.old (list_of m) self.new }
    {
        let n = lines(m);
        let used = m.in_use();
        self.blocks(m, n);
        self.field(b"in use ", used);
        self.word(b"\n");
    }
}

// All that the lister prints for an input of `total` bytes that began with `zero`: puts it at the start of `out` and hands
// back its length.
#[tactic(auto, unfolding(crate::specs::Lines::text_of))]
pub fn text(zero: &[u8], total: usize, out: &mut [u8]) -> usize
    requires { room ≤ length out.old }
    ensures { Written out.old 0 (text_of total (report_of zero.now total)) out.new result }
{
    let o = report(zero, total);
    let mut writer = Writer { out, at: 0 };
    writer.first_lines(total, o.answer);
    if o.answer != Answer::Accepted {
        return writer.at;
    }
    writer.list(o.mapping);
    writer.at
}
