// Reading the save, block by block.
ghost use Rattle.std.specs.Prelude.{◌≡◌, length, take, drop};
ghost use Rattle.save.specs.Save.{save_bytes};
ghost use Rattle.save.specs.Readable.{block_part, PartIn, Readable};

use chip::Chip;
use mapping::{Block, Mapping};

// part becomes the bytes of the block b from `off` on; a free block reads as erased.
fn read_block(image: &[u8], b: Block, off: usize, part: &mut [u8])
    requires { PartIn image.now b off (length part.old) }
    ensures { part.new ≡ block_part image.now b off (length part.old) }
{
    if b.condition.is_free() {
        part.fill(Chip::ERASED);
        return;
    }
    let from = b.physical.0 as usize * Chip::BLOCK + off;
    let n = part.len();
    slices::copy(part, 0, image, from, n);
}

// buf becomes the save's bytes from `place` on.
pub fn read_save(image: &[u8], m: Mapping, place: usize, buf: &mut [u8])
    requires { Readable image.now m place (length buf.old) }
    ensures { buf.new ≡ take (length buf.old) (drop place (save_bytes image.now m)) }
{
    let n = buf.len();
    // the blocks that the range touches, and of each the part from `from` to `to` of the save that lies in the range
    for v in place / Chip::BLOCK..(place + n).div_ceil(Chip::BLOCK) {
        let b = m.blocks[v];
        let start = v * Chip::BLOCK;
        let from = place.max(start);
        let to = (place + n).min(start + Chip::BLOCK);
        read_block(image, b, from - start, &mut buf[from - place..to - place]);
    }
}
