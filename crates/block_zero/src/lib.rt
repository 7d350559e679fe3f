// Block zero made from a mapping, as commit and format store it: items, sum and an erased journal. An inner crate: its callers
// lend an image of at least a block.
#![tactic(auto)]

ghost use Rattle.std.specs.Prelude.{◌≡◌, ◌+◌, ◌*◌, ◌<◌, ◌≤◌, length};
ghost use Rattle.lists.specs.Words.{tabulate, splice};
ghost use Rattle.chip.specs.Figures.{layout_of, block_len, sectors, records};
ghost use Rattle.block_map.specs.Items.{item_at};
ghost use Rattle.block_zero.specs.Put.{head_byte, item_pair, item_of, with_items, with_sum, put_map, fresh_entry, formatted};

use chip::Chip;
use mapping::{Block, Condition, Mapping, Physical, Virtual};

// The first byte of an item: seven bits of a number or a count, and the in-use bit.
fn head_byte(condition: Condition, n: u8) -> u8
    ensures { result ≡ head_byte condition n }
{
    let low = n % Chip::IN_USE;
    if condition.is_free() {
        low
    } else {
        low + Chip::IN_USE
    }
}

// Stores the two bytes of an item.
#[tactic(auto, using(lists::proofs::Stores::set_two), unfolding(crate::specs::Put::item_pair))]
fn put_pair(image: &mut [u8], at: usize, kind: Chip, b: Block)
    requires { at + 2 ≤ length image.old }
    ensures { image.new ≡ splice image.old at (item_pair (layout_of kind) b) }
{
    let condition = b.condition;
    if Chip::is_large(kind) {
        image[at] = head_byte(condition, b.count);
        image[at + 1] = b.physical.0;
    } else {
        image[at] = head_byte(condition, b.physical.0);
        image[at + 1] = b.count;
    }
}

// Stores the item of block v, on a small chip with its tickets.
fn put_item(image: &mut [u8], kind: Chip, v: Virtual, b: Block, tickets: &[u8])
    requires { (block_len ≤ length image.old) × (length tickets.now ≡ records * sectors) }
    ensures { image.new ≡ splice image.old (item_at (layout_of kind) v.0) (item_of (layout_of kind) b tickets.now v.0) }
{
    let at = block_map::item_at(kind, v);
    put_pair(image, at, kind, b);
    if !Chip::is_large(kind) {
        slices::copy(
            image,
            at + 2,
            tickets,
            v.at() * Chip::SECTORS,
            Chip::SECTORS,
        );
    }
}

// Stores the items of all virtual blocks.
#[tactic(auto, using(crate::proofs::Puts::items_none, crate::proofs::Puts::items_more, chip::proofs::Layouts::sound), unfolding(crate::specs::Put::with_items))]
fn put_items(image: &mut [u8], kind: Chip, m: Mapping)
    requires { block_len ≤ length image.old }
    ensures { image.new ≡ with_items (layout_of kind) m image.old }
{
    let v = Chip::virtual_blocks(kind);
    for i in 0..v {
        put_item(image, kind, Virtual(i as u8), m.blocks[i], &m.tickets);
    }
}

// Stores the sum of the map behind it, low byte first.
fn put_sum(image: &mut [u8], kind: Chip)
    requires { block_len ≤ length image.old }
    ensures { image.new ≡ with_sum (layout_of kind) image.old }
{
    let end = Chip::map_len(kind);
    let sum = crc16::crc16_ninty(&image[..end]);
    image[end..end + 2].copy_from_slice(&sum.to_le_bytes());
}

// Block zero from a mapping: items, sum and an erased journal; header and padding stay, and so does all behind block zero.
pub fn put_map(image: &mut [u8], kind: Chip, m: Mapping)
    requires { block_len ≤ length image.old }
    ensures { image.new ≡ put_map (layout_of kind) m image.old }
{
    put_items(image, kind, m);
    put_sum(image, kind);
    let start = Chip::journal_start(kind);
    image[start..Chip::BLOCK].fill(Chip::ERASED);
}

// The records of a formatted image: block i free with physical number i + 1.
#[tactic(auto, using(block_map::proofs::Maps::blank_block, lists::proofs::Tabulate::fill_none, lists::proofs::Tabulate::fill_more))]
fn fresh_blocks(kind: Chip) -> [Block; Chip::RECORDS]
    ensures { result ≡ tabulate (fresh_entry (layout_of kind)) records }
{
    let mut blocks = [Block::default(); Chip::RECORDS];
    for i in 0..Chip::virtual_blocks(kind) {
        blocks[i].physical = Physical((i + 1) as u8);
    }
    blocks
}

// Block zero of a formatted image; all behind it stays.
pub fn format_zero(image: &mut [u8], kind: Chip)
    requires { block_len ≤ length image.old }
    ensures { image.new ≡ formatted (layout_of kind) image.old }
{
    let end = Chip::map_len(kind);
    image[..end].fill(0);
    let blocks = fresh_blocks(kind);
    let m = Mapping::new(
        Chip::image_len(kind),
        blocks,
        [0u8; Chip::RECORDS * Chip::SECTORS],
    );
    put_map(image, kind, m);
}
