// Committing: the mapping that a commit leaves, and block zero from it.
#![tactic(auto)]

ghost use Rattle.std.specs.Prelude.{◌≡◌, ◌+◌, ◌*◌, ◌<◌, ◌≤◌, length};
ghost use Rattle.lists.specs.Words.{pick, tabulate};
ghost use Rattle.chip.specs.Figures.{layout_of, block_len, sectors, records};
ghost use Rattle.block_zero.specs.Put.{put_map};
ghost use Rattle.tickets.specs.Tickets.{ticket_in, Lies};
ghost use Rattle.committing.specs.Committed.{is_changed, clean_condition, cleaned, new_ticket, settled_record, committed};

use chip::Chip;
use mapping::{Block, Condition, Mapping};

// Whether a block was written since the last commit.
fn is_changed(condition: Condition) -> bool
    ensures { result ≡ is_changed condition }
{
    condition == Condition::Changed
}

// The ticket of sector j of a block: of its bytes where the block was changed, and else the stored one.
fn new_ticket(image: &[u8], b: Block, j: usize, stored: u8) -> u8
    requires { (j < sectors) × (b.physical.0 * block_len + block_len ≤ length image.now) }
    ensures { result ≡ pick (is_changed b.condition) (ticket_in image.now b.physical.0 j) stored }
{
    if is_changed(b.condition) {
        let at = tickets::sector_place(b.physical, j);
        return crc16::ticket(&image[at..at + Chip::SECTOR]);
    }
    stored
}

// The tickets after a commit: new ones for the sectors of changed blocks, where the chip is small, and all others as they came.
fn new_tickets(image: &[u8], m: Mapping, kind: Chip) -> [u8; Chip::RECORDS * Chip::SECTORS]
    requires { Lies (layout_of kind) m image.now }
    ensures { result ≡ tabulate (new_ticket (layout_of kind) image.now m) (records * sectors) }
{
    let mut tickets = m.tickets;
    if Chip::is_large(kind) {
        return tickets;
    }
    for s in 0..Chip::virtual_blocks(kind) * Chip::SECTORS {
        let b = m.blocks[s / Chip::SECTORS];
        tickets[s] = new_ticket(image, b, s % Chip::SECTORS, tickets[s]);
    }
    tickets
}

// What a condition is after a commit.
fn clean_condition(condition: Condition) -> Condition
    ensures { result ≡ clean_condition condition }
{
    match condition {
        Condition::Free => Condition::Free,
        Condition::Clean | Condition::Changed => Condition::Clean,
    }
}

// A block's record, no longer changed.
fn clean_block(b: Block) -> Block
    ensures { result ≡ cleaned b }
{
    Block {
        condition: clean_condition(b.condition),
        ..b
    }
}

// The records after a commit: no block is changed any more, and the records from V on stay.
fn clean_blocks(m: Mapping, kind: Chip) -> [Block; Chip::RECORDS]
    ensures { result ≡ tabulate (settled_record (layout_of kind) m) records }
{
    let mut blocks = m.blocks;
    for b in &mut blocks[..Chip::virtual_blocks(kind)] {
        *b = clean_block(*b);
    }
    blocks
}

// Commits to an image of this chip: the mapping after it, with which block zero is stored. Data blocks are only read.
#[tactic(auto, unfolding(crate::specs::Committed::committed))]
pub fn commit_on(image: &mut [u8], m: Mapping, kind: Chip) -> Mapping
    requires { Lies (layout_of kind) m image.old }
    ensures value { result ≡ committed (layout_of kind) image.old m }
    ensures image_after { image.new ≡ put_map (layout_of kind) (committed (layout_of kind) image.old m) image.old }
{
    let tickets = new_tickets(image, m, kind);
    let blocks = clean_blocks(m, kind);
    let n = Mapping::new(m.image_len(), blocks, tickets);
    block_zero::put_map(image, kind, n);
    n
}
