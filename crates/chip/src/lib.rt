// The chips with their figures. Everything here takes any argument.
#![tactic(auto)]

ghost use Rattle.std.specs.Prelude.{◌≡◌, ◌+◌, ◌<◌, ◌≤◌};
ghost use Rattle.chip.specs.Figures.{layout_of, block_len, records, image_len, virtuals, item_len, map_len, journal_at, slot_count, save_len, from_len};

// The kinds of chip.
#[derive(Clone, Copy, PartialEq, Eq)]
pub enum Chip {
    Kib128,
    Kib512,
    Mib1,
}

// The figures of a chip, each written down here and nowhere else in the code.
impl Chip {
    const ALL: [Chip; 3] = [Chip::Kib128, Chip::Kib512, Chip::Mib1];

    pub const BLOCK: usize = 0x1000;

    pub const SECTOR: usize = 0x200;

    pub const SECTORS: usize = Chip::BLOCK / Chip::SECTOR;

    pub const HEADER: usize = 8;

    pub const SLOT: usize = 0x20;
    // The bytes of an item: two, and on small chips a ticket for each sector.
    pub const LARGE_ITEM: usize = 2;

    pub const SMALL_ITEM: usize = 2 + Chip::SECTORS;
    // The bit of an item's first byte that says that the block is in use; the other seven are a number or a count.
    pub const IN_USE: u8 = 0x80;
    // What an erased byte reads as: the bytes of a free block and of an unused journal slot.
    pub const ERASED: u8 = 0xFF;
    // As many block records as a byte can name.
    pub const RECORDS: usize = 256;

    // P, the number of physical blocks.
    pub fn physical_blocks(kind: Chip) -> usize
        ensures value { result ≡ (layout_of kind).p }
        ensures within { (2 ≤ result) × (result ≤ records) }
    {
        match kind {
            Chip::Kib128 => 32,
            Chip::Kib512 => 128,
            Chip::Mib1 => 256,
        }
    }

    // Whether the map has the large layout.
    pub fn is_large(kind: Chip) -> bool
        ensures { result ≡ (layout_of kind).large }
    {
        match kind {
            Chip::Kib128 | Chip::Kib512 => false,
            Chip::Mib1 => true,
        }
    }

    // V, the number of virtual blocks; the last of them is reserved.
    pub fn virtual_blocks(kind: Chip) -> usize
        ensures value { result ≡ virtuals (layout_of kind) }
        ensures within { (1 ≤ result) × (result < records) }
    {
        Chip::physical_blocks(kind) - 1
    }

    pub fn image_len(kind: Chip) -> usize
        ensures { result ≡ image_len (layout_of kind) }
    {
        Chip::physical_blocks(kind) * Chip::BLOCK
    }

    // The chip that a length belongs to, if there is one.
    pub fn from_len(len: usize) -> Option<Chip>
        ensures { result ≡ from_len len }
    {
        for kind in Chip::ALL {
            if len == Chip::image_len(kind) {
                return Some(kind);
            }
        }
        None
    }

    // The bytes of an item.
    pub fn item_len(kind: Chip) -> usize
        ensures { result ≡ item_len (layout_of kind) }
    {
        if Chip::is_large(kind) {
            Chip::LARGE_ITEM
        } else {
            Chip::SMALL_ITEM
        }
    }

    // The bytes of the map, padding included; its sum stands right behind it.
    pub fn map_len(kind: Chip) -> usize
        ensures value { result ≡ map_len (layout_of kind) }
        ensures within { result + 2 ≤ block_len }
    {
        if Chip::is_large(kind) {
            0x3FE
        } else {
            Chip::HEADER + Chip::virtual_blocks(kind) * Chip::SMALL_ITEM
        }
    }

    // Where the journal starts: behind the two bytes of the sum.
    pub fn journal_start(kind: Chip) -> usize
        ensures value { result ≡ journal_at (layout_of kind) }
        ensures within { result ≤ block_len }
    {
        Chip::map_len(kind) + 2
    }

    // How many journal slots fill block zero.
    pub fn slots(kind: Chip) -> usize
        ensures { result ≡ slot_count (layout_of kind) }
    {
        (Chip::BLOCK - Chip::journal_start(kind)) / Chip::SLOT
    }

    // The bytes of the save: every virtual block but the reserved one.
    pub fn save_len(kind: Chip) -> usize
        ensures { result ≡ save_len (layout_of kind) }
    {
        (Chip::virtual_blocks(kind) - 1) * Chip::BLOCK
    }
}
