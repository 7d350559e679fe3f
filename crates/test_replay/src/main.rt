// Replays recorded answers, so that the port is judged with no Rust at hand: sums, opened images, and runs of reads, writes and
// commits. One line for each kind says how many records agreed and how many differed.
//
// Standard input holds the records. Sums, classes, mappings, buffers and images in them are the Rust original's; the number
// and the place of an answer, which the original has not, are those of a model of the paper (`compare/cases/src/paper.rs`).
// The port has no part in them. To make them again: in `compare`, with `ORACLE_SRC` naming the original's folder, run
// `cargo run --offline --profile checked -p record -- 1` and keep its standard output; 1 is the seed. The head of `record` has
// the format, which is read here in the same order. Past the end of the file every byte reads as zero. Everything in it is
// replayed.
#![tactic(auto)]

use answers::Answer;
use chip::Chip;
use mapping::{Block, Mapping, Outcome};

// Standard input.
const STDIN_FILENO: i32 = 0;

// What a record holds: bytes with their sum, an image with what open gives, or such an image with a run of calls.
#[derive(Clone, Copy)]
enum Kind {
    Sum,
    Image,
    Run,
}

// A call of a run.
#[derive(Clone, Copy)]
enum Call {
    Read,
    Write,
    Commit,
}

// The call that a byte of a record names.
impl From<u8> for Call {
    fn from(n: u8) -> Call {
        match n {
            0 => Call::Read,
            1 => Call::Write,
            _ => Call::Commit,
        }
    }
}

// Room for an image: as many blocks as the largest chip has, and a byte for the length that is one too many.
const ROOM: usize = Chip::RECORDS * Chip::BLOCK + 1;

// What the file starts and ends with: "LWR1".
const MARK: usize = 0x3152574C;

// An image of zeros.
fn blank_image() -> [u8; ROOM] {
    [0; ROOM]
}

// The next bytes of the input.
fn read_array<const N: usize>() -> [u8; N] {
    let mut bytes = [0; N];
    io::read_full(STDIN_FILENO, &mut bytes);
    bytes
}

// The next byte.
fn read_u8() -> u8 {
    u8::from_le_bytes(read_array())
}

// The next two bytes, low byte first.
fn read_u16() -> u16 {
    u16::from_le_bytes(read_array())
}

// The next four bytes, low byte first.
fn read_u32() -> usize {
    u32::from_le_bytes(read_array()) as usize
}

// Fills a buffer with the next bytes, and says whether they were there.
fn read_into(buf: &mut [u8]) -> bool {
    io::read_full(STDIN_FILENO, buf) == buf.len()
}

// Replays a sum of as many bytes as are lent.
fn sum_agrees(bytes: &mut [u8]) -> bool {
    let there = read_into(bytes);
    there & (crc16::crc16_ninty(bytes) == read_u16())
}

// What the original calls an answer of open: 1 a wrong size, 2 a wrong signature, 3 an invalid value.
fn class_of(answer: Answer) -> u8 {
    match answer {
        Answer::Accepted => 0,
        Answer::WrongLength => 1,
        Answer::BadNumber(_) | Answer::BadEntry(_) | Answer::ReservedInUse(_) => 3,
        _ => 2,
    }
}

// Whether a block is as recorded: a free condition as 0, a clean one as 1, a changed one as 2.
fn block_agrees(b: Block) -> bool {
    [b.physical.0, b.count, b.condition as u8] == read_array()
}

// Whether all blocks are as recorded.
fn blocks_agree(m: Mapping, kind: Chip) -> bool {
    let mut ok = true;
    for b in &m.blocks[..Chip::virtual_blocks(kind)] {
        ok &= block_agrees(*b);
    }
    ok
}

// Whether all tickets are as recorded: of a large chip none are.
fn tickets_agree(m: Mapping, kind: Chip) -> bool {
    if Chip::is_large(kind) {
        return true;
    }
    let mut ok = true;
    for t in &m.tickets[..Chip::virtual_blocks(kind) * Chip::SECTORS] {
        ok &= *t == read_u8();
    }
    ok
}

// Whether the mapping is as recorded for an image of this length.
fn mapping_agrees(m: Mapping, len: usize) -> bool {
    let Some(kind) = Chip::from_len(len) else {
        return false;
    };
    let blocks = blocks_agree(m, kind);
    let tickets = tickets_agree(m, kind);
    (m.image_len() == len) & blocks & tickets
}

// Whether open gave what is recorded for an image of this length.
fn open_agrees(answer: Answer, m: Mapping, len: usize) -> bool {
    let class = read_u8();
    let same = (class_of(answer) == class) & (answer.number() == read_u8());
    let place = answer.place() == read_u32();
    if class == 0 {
        return mapping_agrees(m, len) & same & place;
    }
    same & place
}

// The byte that a recorded image has at a place: block zero is erased, before the bytes that are kept of it.
fn data_byte(place: usize) -> u8 {
    if place < Chip::BLOCK {
        return Chip::ERASED;
    }
    let sector = (place / Chip::SECTOR).to_le_bytes();
    sector[place % 2]
}

// Lays the bytes that a recorded image has where none are kept.
fn lay_data(image: &mut [u8]) {
    for (at, b) in image.iter_mut().enumerate() {
        *b = data_byte(at);
    }
}

// Makes the bytes of a write; a read finds them in its buffer.
fn lay_bytes(bytes: &mut [u8], first: u8) {
    for (j, b) in bytes.iter_mut().enumerate() {
        let [low, high, ..] = j.to_le_bytes();
        *b = first.wrapping_add(low).wrapping_add(high);
    }
}

// Makes a recorded call.
fn make_call(image: &mut [u8], m: Mapping, call: Call, place: usize, bytes: &mut [u8]) -> Outcome {
    match call {
        Call::Read => wear_leveling::read(image, m, place, bytes),
        Call::Write => wear_leveling::write(image, m, place, bytes),
        Call::Commit => wear_leveling::commit(image, m),
    }
}

// Whether the map and the rest of the image have these sums.
fn image_sums_are(image: &[u8], sum: u16, rest: u16) -> bool {
    let Some(kind) = Chip::from_len(image.len()) else {
        return false;
    };
    let Some((map, behind)) = image.split_at_checked(Chip::map_len(kind)) else {
        return false;
    };
    (crc16::crc16_ninty(map) == sum) & (crc16::crc16_ninty(behind) == rest)
}

// Whether what a call left has the recorded sums: a read its buffer, another the image.
fn sums_agree(call: Call, image: &[u8], bytes: &[u8]) -> bool {
    let sum = read_u16();
    let rest = read_u16();
    match call {
        Call::Read => crc16::crc16_ninty(bytes) == sum,
        Call::Write | Call::Commit => image_sums_are(image, sum, rest),
    }
}

// Replays a call whose bytes are lent. Gives the mapping to go on with: the blank one, which every later call refuses and no
// run ends with, where the call is refused or leaves other bytes.
fn step_on(image: &mut [u8], m: Mapping, call: Call, place: usize, bytes: &mut [u8]) -> Mapping {
    lay_bytes(bytes, read_u8());
    let o = make_call(image, m, call, place, bytes);
    if sums_agree(call, image, bytes) && o.answer == Answer::Accepted {
        return o.mapping;
    }
    Mapping::blank()
}

// Replays the next step of a run, and gives the mapping to go on with.
fn step(image: &mut [u8], m: Mapping) -> Mapping {
    let call = Call::from(read_u8());
    let place = read_u32();
    let n = read_u32();
    let mut bytes = io::large_buffer();
    match bytes.get_mut(..n) {
        Some(part) => step_on(image, m, call, place, part),
        None => Mapping::blank(),
    }
}

// Replays a run's steps from the mapping that open gave, and compares the last mapping.
fn run_agrees(image: &mut [u8], opened: Mapping) -> bool {
    let mut m = opened;
    for _ in 0..read_u16() {
        m = step(image, m);
    }
    mapping_agrees(m, image.len())
}

// Replays an image of the length that is lent: whether open gave what is recorded, and the mapping that it gave.
fn opened(image: &mut [u8]) -> (bool, Mapping) {
    lay_data(image);
    let kept = usize::from(read_u16());
    let there = image.get_mut(..kept).is_some_and(read_into);
    let o = wear_leveling::open(image);
    let same = open_agrees(o.answer, o.mapping, image.len());
    (same & there, o.mapping)
}

// Replays one record: each begins with a length.
fn record_agrees(room: &mut [u8], kind: Kind) -> bool {
    let len = read_u32();
    let Some(part) = room.get_mut(..len) else {
        return false;
    };
    match kind {
        Kind::Sum => sum_agrees(part),
        Kind::Image => {
            let (same, _) = opened(part);
            same
        }
        Kind::Run => {
            let (same, m) = opened(part);
            run_agrees(part, m) & same
        }
    }
}

// Replays n records of a kind, and prints how many agreed and how many differed.
fn replay_records(rt: &impl Print, room: &mut [u8; ROOM], kind: Kind, name: &str, n: usize) {
    let mut agree: usize = 0;
    let mut differ: usize = 0;
    for _ in 0..n {
        if record_agrees(room, kind) {
            agree += 1;
        } else {
            differ += 1;
        }
    }
    let _ = println!(rt; "{name} {agree} agree, {differ} differ");
}

// Replays the three kinds, in the file's order.
fn replay(rt: &impl Print) {
    let mut room = blank_image();
    let sums = read_u32();
    let images = read_u32();
    let runs = read_u32();
    replay_records(rt, &mut room, Kind::Sum, "sums", sums);
    replay_records(rt, &mut room, Kind::Image, "images", images);
    replay_records(rt, &mut room, Kind::Run, "runs", runs);
}

fn main(rt: HostRuntime) {
    if read_u32() != MARK {
        let _ = println!(rt; "no recorded answers");
        return;
    }
    replay(&rt);
    let marked = read_u32() == MARK;
    let more = read_into(&mut [0; 1]);
    if !marked | more {
        let _ = println!(rt; "the recorded answers do not end here");
    }
}
