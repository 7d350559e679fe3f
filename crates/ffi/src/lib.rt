// The calls that C makes, which include/ladlewillow.h declares: the six of wear_leveling and the sum, each with what crosses on its
// way in and out. `ffi_c` exports them under these names.
#![tactic(auto)]

ghost use Rattle.std.specs.Prelude.{◌≡◌, length};
ghost use Rattle.crc16.specs.Crc.{crc16};
ghost use Rattle.mapping.specs.Outcomes.{outcome};
ghost use Rattle.wear_leveling.specs.Open.{open_of};
ghost use Rattle.wear_leveling.specs.Read.{admission, read_into};
ghost use Rattle.wear_leveling.specs.Write.{after_write};
ghost use Rattle.wear_leveling.specs.Commit.{commit_answer, after_commit};
ghost use Rattle.wear_leveling.specs.Format.{format_answer, after_format};
ghost use Rattle.crossing.specs.Crossing.{to_c, from_c, answer_c, answered, outcome_c, len_c};

use chip::Chip;
use crossing::{CAnswer, CMapping, COutcome};
use mapping::Mapping;

// The sum of any bytes; 0xFFFF of none.
pub fn lw_crc16(bytes: &[u8]) -> u16
    ensures { result ≡ crc16 bytes.now }
{
    crc16::crc16_ninty(bytes)
}

// Formats an image of one of the chips' lengths; another length is refused with 1 and left as it is.
pub fn lw_format(image: &mut [u8]) -> CAnswer
    ensures value { result ≡ answer_c (format_answer (length image.old)) }
    ensures image_after { image.new ≡ after_format image.old }
{
    CAnswer::from(wear_leveling::format(image))
}

// Opens an image of any length; nothing is stored.
pub fn lw_open(image: &[u8]) -> COutcome
    ensures { result ≡ answered (open_of image.now).answer (to_c (open_of image.now).mapping) }
{
    let o = wear_leveling::open(image);
    crossing::answered(o.answer, CMapping::from(o.mapping))
}

// The bytes of the save that a mapping belongs to, by its length alone; 0 for a length that is no chip's.
pub fn lw_len(m: CMapping) -> usize
    ensures { result ≡ len_c m }
{
    Chip::from_len(m.len).map_or(0, Chip::save_len)
}

// Reads buf.len() bytes of the save from `place` on; the mapping goes back as it came.
pub fn lw_read(image: &[u8], m: CMapping, place: usize, buf: &mut [u8]) -> COutcome
    ensures value { result ≡ answered (admission (length image.now) (from_c m) place (length buf.old)) m }
    ensures buf_after { buf.new ≡ read_into image.now (from_c m) place buf.old }
{
    let o = wear_leveling::read(image, Mapping::from(m), place, buf);
    crossing::answered(o.answer, m)
}

// Writes `bytes` into the save from `place` on.
pub fn lw_write(image: &mut [u8], m: CMapping, place: usize, bytes: &[u8]) -> COutcome
    ensures value { result ≡ outcome_c (outcome (admission (length image.old) (from_c m) place (length bytes.now)) (after_write image.old (from_c m) place bytes.now).mapping) m }
    ensures image_after { image.new ≡ (after_write image.old (from_c m) place bytes.now).image }
{
    let o = wear_leveling::write(image, Mapping::from(m), place, bytes);
    crossing::outcome_to_c(o, m)
}

// Commits: block zero from the mapping, and no block changed any more.
pub fn lw_commit(image: &mut [u8], m: CMapping) -> COutcome
    ensures value { result ≡ outcome_c (outcome (commit_answer (length image.old) (from_c m)) (after_commit image.old (from_c m)).mapping) m }
    ensures image_after { image.new ≡ (after_commit image.old (from_c m)).image }
{
    let o = wear_leveling::commit(image, Mapping::from(m));
    crossing::outcome_to_c(o, m)
}
