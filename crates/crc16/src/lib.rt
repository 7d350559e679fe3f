// The check sum of maps and sectors, CRC-16 as Modbus has it, and the ticket of a sector.
#![tactic(auto)]

ghost use Rattle.std.specs.Prelude.{◌≡◌};
ghost use Rattle.crc16.specs.Crc.{bit_step, byte_step, crc_from, crc16, ticket_of};

// Shifts right by one and, if a one fell out, exclusive-ors 0xA001.
fn bit_step(s: u16) -> u16
    ensures { result ≡ bit_step s }
{
    if s % 2 == 1 { (s / 2) ^ 0xA001 } else { s / 2 }
}

// One byte, in eight steps. LLVM makes a 256-entry table of this loop, so it stays a loop.
fn byte_step(s: u16, b: u8) -> u16
    ensures { result ≡ byte_step s b }
{
    let mut x = s ^ u16::from(b);
    for _ in 0usize..8 {
        x = bit_step(x);
    }
    x
}

// Goes on from the sum `start` over `data`.
fn crc16_from(start: u16, data: &[u8]) -> u16
    ensures { result ≡ crc_from start «data».now }
{
    let mut s = start;
    for b in data {
        s = byte_step(s, *b);
    }
    s
}

// The sum of any bytes; 0xFFFF of none.
pub fn crc16_ninty(data: &[u8]) -> u16
    ensures { result ≡ crc16 «data».now }
{
    crc16_from(0xFFFF, data)
}

// The ticket of a sector: the exclusive-or of the two bytes of its sum. Any length is taken.
pub fn ticket(sector: &[u8]) -> u8
    ensures { result ≡ ticket_of (crc16 sector.now) }
{
    let [low, high] = crc16_ninty(sector).to_le_bytes();
    low ^ high
}
