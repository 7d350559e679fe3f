// The map of block zero read: items into a mapping, its sum, and the test of step 3. An inner crate: its callers lend block
// zero, as an array of its bytes.
#![tactic(auto)]

ghost use Rattle.std.specs.Prelude.{◌≡◌, ◌+◌, ◌*◌, ◌<◌, ◌≤◌};
ghost use Rattle.lists.specs.Words.{tabulate};
ghost use Rattle.chip.specs.Figures.{layout_of, block_len, small_item, sectors, records};
ghost use Rattle.block_map.specs.Items.{item_at, item_condition, decoded, item_ticket, block_entry, ticket_entry, loaded, sum_holds, bad_number};

use chip::Chip;
use mapping::{Block, Condition, Mapping, Physical, Virtual};

// Where the item of block v stands.
pub fn item_at(kind: Chip, v: Virtual) -> usize
    ensures value { result ≡ item_at (layout_of kind) v.0 }
    ensures within { result + small_item ≤ block_len }
{
    Chip::HEADER + v.at() * Chip::item_len(kind)
}

// What the in-use bit says; nothing is changed yet.
fn item_condition(a: u8) -> Condition
    ensures { result ≡ item_condition a }
{
    if Chip::IN_USE <= a {
        Condition::Clean
    } else {
        Condition::Free
    }
}

// The two bytes of an item as a block's record.
#[tactic(auto, unfolding(crate::specs::Items::decoded))]
fn decode(kind: Chip, a: u8, b: u8) -> Block
    ensures { result ≡ decoded (layout_of kind) a b }
{
    let condition = item_condition(a);
    let low = a % Chip::IN_USE;
    let (number, count) = if Chip::is_large(kind) {
        (b, low)
    } else {
        (low, b)
    };
    Block {
        physical: Physical(number),
        count,
        condition,
    }
}

// The records of the map, and blank ones from V on.
#[tactic(auto, using(crate::proofs::Maps::blank_block, lists::proofs::Tabulate::fill_none, lists::proofs::Tabulate::fill_more), unfolding(crate::specs::Items::item_block))]
fn load_blocks(zero: &[u8; Chip::BLOCK], kind: Chip) -> [Block; Chip::RECORDS]
    ensures { result ≡ tabulate (block_entry (layout_of kind) zero.now) records }
{
    let mut blocks = [Block::default(); Chip::RECORDS];
    for i in 0..Chip::virtual_blocks(kind) {
        let at = item_at(kind, Virtual(i as u8));
        blocks[i] = decode(kind, zero[at], zero[at + 1]);
    }
    blocks
}

// Ticket j of the map of a small chip; 0 where its block is free.
#[tactic(auto, unfolding(crate::specs::Items::item_ticket))]
fn item_ticket(zero: &[u8; Chip::BLOCK], kind: Chip, j: usize) -> u8
    requires { j < records * sectors }
    ensures { result ≡ item_ticket (layout_of kind) zero.now j }
{
    let at = item_at(kind, Virtual((j / Chip::SECTORS) as u8));
    if Chip::is_large(kind) || zero[at] < Chip::IN_USE {
        return 0;
    }
    zero[at + 2 + j % Chip::SECTORS]
}

// The tickets of the map, and zeros from V on and on a large chip.
#[tactic(auto, using(crate::proofs::Maps::bare, lists::proofs::Tabulate::fill_none, lists::proofs::Tabulate::fill_more))]
fn load_tickets(zero: &[u8; Chip::BLOCK], kind: Chip) -> [u8; Chip::RECORDS * Chip::SECTORS]
    ensures { result ≡ tabulate (ticket_entry (layout_of kind) zero.now) (records * sectors) }
{
    let mut tickets = [0u8; Chip::RECORDS * Chip::SECTORS];
    if Chip::is_large(kind) {
        return tickets;
    }
    for j in 0..Chip::virtual_blocks(kind) * Chip::SECTORS {
        tickets[j] = item_ticket(zero, kind, j);
    }
    tickets
}

// The mapping that the map of block zero holds.
#[tactic(auto, unfolding(crate::specs::Items::loaded))]
pub fn load_map(zero: &[u8; Chip::BLOCK], kind: Chip) -> Mapping
    ensures { result ≡ loaded (layout_of kind) zero.now }
{
    let blocks = load_blocks(zero, kind);
    let tickets = load_tickets(zero, kind);
    Mapping::new(Chip::image_len(kind), blocks, tickets)
}

// Step 2: whether the stored sum is the map's.
pub fn sum_holds(zero: &[u8; Chip::BLOCK], kind: Chip) -> bool
    ensures { result ≡ sum_holds (layout_of kind) zero.now }
{
    let end = Chip::map_len(kind);
    let stored = u16::from_le_bytes([zero[end], zero[end + 1]]);
    crc16::crc16_ninty(&zero[..end]) == stored
}

// Step 3: the first block whose number is outside 1 to P − 1 or has appeared before.
#[tactic(auto, using(crate::proofs::Maps::bad_low, crate::proofs::Maps::bad_high, crate::proofs::Maps::bad_again, mapping::proofs::Onto::seen_none, answers::proofs::Searches::sought_none, answers::proofs::Searches::sought_hit, answers::proofs::Searches::sought_end), unfolding(crate::specs::Items::bad_number))]
pub fn bad_number(m: Mapping, kind: Chip) -> Option<usize>
    ensures { result ≡ bad_number (layout_of kind) m }
{
    let v = Chip::virtual_blocks(kind);
    let p = Chip::physical_blocks(kind);
    let mut seen = [false; Chip::RECORDS];
    for i in 0..v {
        let n = usize::from(m.blocks[i].physical.0);
        if n < 1 || p <= n || seen[n] {
            return Some(i);
        }
        seen[n] = true;
    }
    None
}
