// Writing into a save, at once, in the image: the sectors of a block together, block by block.
ghost use Rattle.std.specs.Prelude.{◌≡◌, ◌+◌, ◌*◌, ◌≤◌, length};
ghost use Rattle.lists.specs.Words.{splice, rep};
ghost use Rattle.chip.specs.Figures.{block_len, erased, records};
ghost use Rattle.save.specs.Visits.{state, first_sector, end_sector, first_count, visited_block, opened_image, written, CanWrite};
ghost use Rattle.save.specs.Parts.{stored_parts, CanStore};

use crate::places::block_of;
use chip::Chip;
use mapping::{Block, Condition, Mapping, Physical};

// The one fixed blank sheet: a sector of erased bytes.
const CHUNK_INIT: [u8; Chip::SECTOR] = [Chip::ERASED; Chip::SECTOR];

// Fills a physical block, sector by sector, from the blank sheet.
#[tactic(auto, using(crate::proofs::Visits::filling))]
fn init_block(image: &mut [u8], number: Physical)
    requires { number.0 * block_len + block_len ≤ length image.old }
    ensures { image.new ≡ splice image.old (number.0 * block_len) (rep block_len erased) }
{
    let sheet = CHUNK_INIT;
    for j in 0..Chip::SECTORS {
        let at = tickets::sector_place(number, j);
        slices::copy(image, at, &sheet, 0, Chip::SECTOR);
    }
}

// The count of a block that is put in use: 0 becomes 1.
#[tactic(auto, unfolding(crate::specs::Visits::first_count))]
fn first_count(count: u8) -> u8
    ensures { result ≡ first_count count }
{
    count.max(1)
}

// What a visit does to a block: a free one is filled and put in use, and each becomes changed.
#[tactic(auto, unfolding(crate::specs::Visits::visited_block, crate::specs::Visits::opened_image))]
fn visit_block(image: &mut [u8], b: Block) -> Block
    requires { b.physical.0 * block_len + block_len ≤ length image.old }
    ensures value { result ≡ visited_block b }
    ensures image_after { image.new ≡ opened_image b image.old }
{
    let mut visited = b;
    if b.condition.is_free() {
        init_block(image, b.physical);
        visited.count = first_count(b.count);
    }
    visited.condition = Condition::Changed;
    visited
}

// The bytes of a write, and where in the save they are to stand.
#[derive(Clone, Copy)]
struct Written<'a> {
    place: usize,
    bytes: &'a [u8],
}

impl Written<'_> {
    // The first sector that they fall into.
    fn first_sector(self) -> usize
        ensures { result ≡ first_sector self.entry.place }
    {
        self.place / Chip::SECTOR
    }

    // The sector after the last of them.
    fn end_sector(self) -> usize
        requires { self.place + length self.bytes.now ≤ records * block_len }
        ensures { result ≡ end_sector self.entry.place (length self.entry.bytes.now) }
    {
        (self.place + self.bytes.len()).div_ceil(Chip::SECTOR)
    }

    // Stores the parts of them that fall into sectors s up to `stop` of the save, which lie in this physical block.
    #[tactic(auto, unfolding(crate::specs::Parts::stored_parts, crate::specs::Parts::parts_end, crate::specs::Visits::part_from))]
    fn store(self, image: &mut [u8], number: Physical, s: usize, stop: usize)
        requires { CanStore image.old number.0 self.place (length self.bytes.now) s stop }
        ensures { image.new ≡ stored_parts number.0 self.entry.place self.entry.bytes.now s stop image.old }
    {
        let start = s * Chip::SECTOR;
        let from = self.place.max(start);
        let end = (self.place + self.bytes.len()).min(stop * Chip::SECTOR);
        let at = tickets::sector_place(number, s % Chip::SECTORS) + (from - start);
        slices::copy(image, at, self.bytes, from - self.place, end - from);
    }
}

// Visits all sectors of a write that was accepted, those of a block at once, and hands the mapping back as it is then.
pub fn write_save(image: &mut [u8], m: Mapping, place: usize, bytes: &[u8]) -> Mapping
    requires { CanWrite image.old m place (length bytes.now) }
    ensures { state image.new result ≡ written place bytes.now (state image.old m) }
{
    let write = Written { place, bytes };
    let mut t = m;
    let mut s = write.first_sector();
    let end = write.end_sector();
    // A `while`, so that a write of nothing visits no block unless it begins within a sector.
    while s < end {
        let v = block_of(s * Chip::SECTOR).at();
        let stop = ((v + 1) * Chip::SECTORS).min(end);
        let b = t.blocks[v];
        t.blocks[v] = visit_block(image, b);
        write.store(image, b.physical, s, stop);
        s = stop;
    }
    t
}
