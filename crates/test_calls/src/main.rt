// Makes the six calls on images of each chip's length and of lengths that are no chip's, first all zeros and then all 0xFF, and
// prints what they give: format, open with the mapping's len, a read, a write, the same read, a commit, an open and the same
// read again. The byte is the save's last one. Two sums tell of the whole image before and after. What is expected stands in
// `stdout`, worked out from the paper.
#![tactic(auto)]

use answers::Answer;
use mapping::Mapping;

// Room for the longest image: a byte more than the largest chip has.
const ROOM: usize = 0x100001;

// Where the image is cut for its two sums. Not at the map's end: the sum over a map and its stored sum is 0 whatever it holds.
const CUT: usize = 0x100;

// What a buffer holds before a read, and what is written.
const BEFORE: u8 = 17;

const WRITTEN: u8 = 90;

// An image of one byte over and over.
fn image_of(b: u8) -> [u8; ROOM] {
    [b; ROOM]
}

// Prints how a call ended, in a line that goes on.
fn say(rt: &impl Print, call: &str, answer: Answer) {
    let number = answer.number();
    let place = answer.place();
    let _ = print!(rt; "{call} {number} place {place}");
}

// Prints the sums of the image's two parts.
fn show_sums(rt: &impl Print, image: &[u8]) {
    let Some((first, rest)) = image.split_at_checked(CUT) else {
        return;
    };
    let first = crc16::crc16_ninty(first);
    let rest = crc16::crc16_ninty(rest);
    let _ = println!(rt; "sums {first:04x} {rest:04x}");
}

// Opens, and shows the answer and the mapping's len.
fn show_open(rt: &impl Print, image: &[u8]) -> Mapping {
    let o = wear_leveling::open(image);
    let len = wear_leveling::len(o.mapping);
    say(rt, "open", o.answer);
    let _ = println!(rt; " len {len}");
    o.mapping
}

// Reads one byte, and shows the answer and the buffer.
fn show_read(rt: &impl Print, image: &[u8], m: Mapping, at: usize) {
    let mut buf = [BEFORE; 1];
    let o = wear_leveling::read(image, m, at, &mut buf);
    let [byte] = buf;
    say(rt, "read", o.answer);
    let _ = println!(rt; " byte {byte}");
}

// Writes one byte, and shows the answer.
fn show_write(rt: &impl Print, image: &mut [u8], m: Mapping, at: usize) -> Mapping {
    let o = wear_leveling::write(image, m, at, &[WRITTEN; 1]);
    say(rt, "write", o.answer);
    let _ = println!(rt; "");
    o.mapping
}

// Commits, and shows the answer.
fn show_commit(rt: &impl Print, image: &mut [u8], m: Mapping) {
    let o = wear_leveling::commit(image, m);
    say(rt, "commit", o.answer);
    let _ = println!(rt; "");
}

// Formats, and shows the answer with the sums before and after.
fn show_format(rt: &impl Print, image: &mut [u8]) {
    show_sums(rt, image);
    let answer = wear_leveling::format(image);
    say(rt, "format", answer);
    let _ = println!(rt; "");
    show_sums(rt, image)
}

// The save's last byte, 0 where it has none.
fn last_of(m: Mapping) -> usize {
    wear_leveling::len(m).saturating_sub(1)
}

// Opens, and shows the save's last byte.
fn show_last(rt: &impl Print, image: &[u8]) -> Mapping {
    let m = show_open(rt, image);
    show_read(rt, image, m, last_of(m));
    m
}

// Writes the save's last byte, reads it and commits.
fn show_change(rt: &impl Print, image: &mut [u8], m: Mapping) {
    let at = last_of(m);
    let written = show_write(rt, image, m, at);
    show_read(rt, image, written, at);
    show_commit(rt, image, written);
    show_sums(rt, image)
}

// All calls on one image.
fn show_calls(rt: &impl Print, image: &mut [u8]) {
    show_format(rt, image);
    let m = show_last(rt, image);
    show_change(rt, image, m);
    show_last(rt, image);
}

// All calls on an image of this length, filled with b.
fn show_image(rt: &impl Print, len: usize, b: u8) {
    let mut room = image_of(b);
    let Some(image) = room.get_mut(..len) else {
        return;
    };
    let _ = println!(rt; "length {len} of {b}");
    show_calls(rt, image)
}

fn main(rt: HostRuntime) {
    for len in [0x20000, 0x80000, 0x100000, 0x1FFFF, 0x40000, 0x100001] {
        show_image(&rt, len, 0);
        show_image(&rt, len, 0xFF);
    }
}
