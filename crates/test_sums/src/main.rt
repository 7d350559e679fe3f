// Runs the check sum over published messages and cases A to C; the expected sums stand in `stdout`.
#![tactic(auto)]

// Prints a name, the sum of the message and its ticket.
fn show(rt: &impl Print, name: &str, message: &[u8]) {
    let sum = crc16::crc16_ninty(message);
    let ticket = crc16::ticket(message);
    let _ = println!(rt; "{name} sum {sum:04x} ticket {ticket:02x}");
}

fn main(rt: HostRuntime) {
    show(&rt, "02 07", b"\x02\x07");
    show(&rt, "123456789", b"123456789");
    show(&rt, "01 04 02 FF FF", b"\x01\x04\x02\xFF\xFF");
    show(&rt, "none", b"");
    show(&rt, "FF", b"\xFF");
    show(&rt, "00", b"\x00")
}
