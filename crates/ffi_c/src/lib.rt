// What the static library exports: the calls of `ffi`, with the same promises, under the names of include/ladlewillow.h.
#![tactic(auto)]

ghost use Rattle.std.specs.Prelude.{◌≡◌, length};
ghost use Rattle.crc16.specs.Crc.{crc16};
ghost use Rattle.mapping.specs.Outcomes.{outcome};
ghost use Rattle.wear_leveling.specs.Open.{open_of};
ghost use Rattle.wear_leveling.specs.Read.{admission, read_into};
ghost use Rattle.wear_leveling.specs.Write.{after_write};
ghost use Rattle.wear_leveling.specs.Commit.{commit_answer, after_commit};
ghost use Rattle.wear_leveling.specs.Format.{format_answer, after_format};
ghost use Rattle.crossing.specs.Crossing.{to_c, from_c, answer_c, answered, outcome_c, len_c};

use crossing::{CAnswer, CMapping, COutcome};

// The sum of any bytes; 0xFFFF of none.
#[unsafe(no_mangle)]
pub extern "C" fn lw_crc16(bytes: &[u8]) -> u16
    ensures { result ≡ crc16 bytes.now }
{
    ffi::lw_crc16(bytes)
}

// Formats an image of one of the chips' lengths; another length is refused with 1 and left as it is.
#[unsafe(no_mangle)]
pub extern "C" fn lw_format(image: &mut [u8]) -> CAnswer
    ensures value { result ≡ answer_c (format_answer (length image.old)) }
    ensures image_after { image.new ≡ after_format image.old }
{
    ffi::lw_format(image)
}

// Opens an image of any length; nothing is stored.
#[unsafe(no_mangle)]
pub extern "C" fn lw_open(image: &[u8]) -> COutcome
    ensures { result ≡ answered (open_of image.now).answer (to_c (open_of image.now).mapping) }
{
    ffi::lw_open(image)
}

// The bytes of the save that a mapping belongs to, by its length alone; 0 for a length that is no chip's.
#[unsafe(no_mangle)]
pub extern "C" fn lw_len(m: CMapping) -> usize
    ensures { result ≡ len_c m }
{
    ffi::lw_len(m)
}

// Reads buf.len() bytes of the save from `place` on; the mapping goes back as it came.
#[unsafe(no_mangle)]
pub extern "C" fn lw_read(image: &[u8], m: CMapping, place: usize, buf: &mut [u8]) -> COutcome
    ensures value { result ≡ answered (admission (length image.now) (from_c m) place (length buf.old)) m }
    ensures buf_after { buf.new ≡ read_into image.now (from_c m) place buf.old }
{
    ffi::lw_read(image, m, place, buf)
}

// Writes `bytes` into the save from `place` on.
#[unsafe(no_mangle)]
pub extern "C" fn lw_write(image: &mut [u8], m: CMapping, place: usize, bytes: &[u8]) -> COutcome
    ensures value { result ≡ outcome_c (outcome (admission (length image.old) (from_c m) place (length bytes.now)) (after_write image.old (from_c m) place bytes.now).mapping) m }
    ensures image_after { image.new ≡ (after_write image.old (from_c m) place bytes.now).image }
{
    ffi::lw_write(image, m, place, bytes)
}

// Commits: block zero from the mapping, and no block changed any more.
#[unsafe(no_mangle)]
pub extern "C" fn lw_commit(image: &mut [u8], m: CMapping) -> COutcome
    ensures value { result ≡ outcome_c (outcome (commit_answer (length image.old) (from_c m)) (after_commit image.old (from_c m)).mapping) m }
    ensures image_after { image.new ≡ (after_commit image.old (from_c m)).image }
{
    ffi::lw_commit(image, m)
}
