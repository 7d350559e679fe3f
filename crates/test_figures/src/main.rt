// Prints the table of chips from their functions; the paper's table stands in `stdout`.
#![tactic(auto)]

use chip::Chip;

// One line of the table: length, P, V, map bytes, item, sum at, journal at, slots, save bytes.
fn line(rt: &impl Print, kind: Chip) {
    let len = Chip::image_len(kind);
    let p = Chip::physical_blocks(kind);
    let v = Chip::virtual_blocks(kind);
    let map = Chip::map_len(kind);
    let item = Chip::item_len(kind);
    let journal = Chip::journal_start(kind);
    let slots = Chip::slots(kind);
    let save = Chip::save_len(kind);
    let _ = println!(rt; "{len} {p} {v} {map} {item} {map} {journal} {slots} {save}");
}

fn main(rt: HostRuntime) {
    line(&rt, Chip::Kib128);
    line(&rt, Chip::Kib512);
    line(&rt, Chip::Mib1)
}
