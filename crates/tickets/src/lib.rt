// Step 7 of opening: the tickets of a small chip's sectors.
#![tactic(auto)]

ghost use Rattle.std.specs.Prelude.{◌≡◌, ◌+◌, ◌*◌, ◌<◌, ◌≤◌, length};
ghost use Rattle.mapping.specs.Outcomes.{ComesTo};
ghost use Rattle.chip.specs.Figures.{layout_of, block_len, sectors};
ghost use Rattle.tickets.specs.Tickets.{sector_place, ticket_in, sector_fails, bad_ticket, tickets_of, Lies, LiesIn};

use answers::Answer;
use chip::Chip;
use mapping::{Block, Mapping, Physical};

// Where sector j of a physical block stands in the image.
pub fn sector_place(number: Physical, j: usize) -> usize
    requires { j < sectors }
    ensures { result ≡ sector_place number.0 j }
{
    number.0 as usize * Chip::BLOCK + j * Chip::SECTOR
}

// Whether sector j of a block is in use and has another ticket than the stored one.
fn sector_fails(image: &[u8], b: Block, j: usize, stored: u8) -> bool
    requires { (j < sectors) × (b.physical.0 * block_len + block_len ≤ length image.now) }
    ensures { result ≡ sector_fails (ticket_in image.now) b j stored }
{
    if b.condition.is_free() {
        return false;
    }
    let at = sector_place(b.physical, j);
    crc16::ticket(&image[at..at + Chip::SECTOR]) != stored
}

// Step 7: the first sector of the first block whose ticket does not fit, as 8 × block + sector.
fn bad_ticket(image: &[u8], m: Mapping, kind: Chip) -> Option<usize>
    requires { Lies (layout_of kind) m image.now }
    ensures { result ≡ bad_ticket (layout_of kind) (ticket_in image.now) m }
{
    if Chip::is_large(kind) {
        return None;
    }
    let mut found = None;
    'blocks: for b in 0..Chip::virtual_blocks(kind) {
        for j in 0..Chip::SECTORS {
            let s = b * Chip::SECTORS + j;
            if sector_fails(image, m.blocks[b], j, m.tickets[s]) {
                found = Some(s);
                break 'blocks;
            }
        }
    }
    found
}

// Step 7 on an image of whatever length; a length that is no chip's was refused before.
#[tactic(auto, unfolding(crate::specs::Tickets::tickets_of))]
pub fn check_tickets(image: &[u8], m: Mapping) -> Result<Mapping, Answer>
    requires { LiesIn m image.now }
    ensures { ComesTo result (tickets_of image.now m) }
{
    let kind = Chip::from_len(image.len()).ok_or(Answer::WrongLength)?;
    match bad_ticket(image, m, kind) {
        Some(s) => Err(Answer::WrongTicket(s)),
        None => Ok(m),
    }
}
