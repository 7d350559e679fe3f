// What others call: format, open, read, write, commit and len, over an image that the caller lends and a mapping that goes in and
// comes back by value. Each takes anything, and its contract determines answer, mapping, image and buffer, refused or not.
#![tactic(auto)]

ghost use Rattle.std.specs.Prelude.{◌≡◌, length};
ghost use Rattle.mapping.specs.Blocks.{len_of};
ghost use Rattle.mapping.specs.Outcomes.{outcome, outcome_of};
ghost use Rattle.wear_leveling.specs.Open.{open_of};
ghost use Rattle.wear_leveling.specs.Read.{admission, admitted, read_into};
ghost use Rattle.wear_leveling.specs.Write.{after_write};
ghost use Rattle.wear_leveling.specs.Commit.{commit_answer, after_commit};
ghost use Rattle.wear_leveling.specs.Format.{format_answer, after_format};

use answers::Answer;
use chip::Chip;
use mapping::{Mapping, Outcome};

// Steps 1 to 7 on an image of any length.
#[tactic(auto, using(crate::proofs::Short::open_short), unfolding(crate::specs::Open::open_of))]
fn opened(image: &[u8]) -> Result<Mapping, Answer>
    ensures { outcome_of result ≡ open_of image.now }
{
    let zero = image.first_chunk().ok_or(Answer::WrongLength)?;
    let m = journal::open_map(zero, image.len())?;
    tickets::check_tickets(image, m)
}

// Opens an image of any length: accepted with the mapping to work with, or refused with the blank mapping and the step and
// place that decided. Nothing is stored.
pub fn open(image: &[u8]) -> Outcome
    ensures { result ≡ open_of image.now }
{
    Outcome::from(opened(image))
}

// The tests of read and write, of n bytes of the save from `place` on: 8, then 9.
#[tactic(auto, unfolding(crate::specs::Read::admission))]
fn admit(image_len: usize, m: Mapping, place: usize, n: usize) -> Result<(), Answer>
    ensures { result ≡ admitted (admission image_len m place n) }
{
    if !m.fits(image_len) {
        return Err(Answer::DoesNotFit);
    }
    if !mapping::in_save(m.len(), place, n) {
        return Err(Answer::OutOfRange);
    }
    Ok(())
}

// Reads buf.len() bytes of the save from `place` on. A refusal (8: the mapping does not fit the image; 9: the range does not
// lie in the save) leaves buf as it was; the mapping comes back as it went in. Tickets are not checked again.
#[tactic(auto, using(crate::proofs::Granted::granted_read), unfolding(crate::specs::Read::read_into))]
pub fn read(image: &[u8], m: Mapping, place: usize, buf: &mut [u8]) -> Outcome
    ensures value { result ≡ outcome (admission (length image.now) m place (length buf.old)) m }
    ensures buf_after { buf.new ≡ read_into image.now m place buf.old }
{
    if let Err(answer) = admit(image.len(), m, place, buf.len()) {
        return Outcome { answer, mapping: m };
    }
    save::reading::read_save(image, m, place, buf);
    Outcome::accepted(m)
}

// Writes `bytes` into the save from `place` on, at once, in the image. A first visit to a free block puts it in use; each
// visited block becomes changed; tickets stay until commit. A refusal (8: the mapping does not fit the image; 9: the range
// does not lie in the save) stores nothing and hands the mapping back as it came.
#[tactic(auto, using(crate::proofs::Granted::granted_write), unfolding(crate::specs::Write::after_write))]
pub fn write(image: &mut [u8], m: Mapping, place: usize, bytes: &[u8]) -> Outcome
    ensures value { result ≡ outcome (admission (length image.old) m place (length bytes.now)) (after_write image.old m place bytes.now).mapping }
    ensures image_after { image.new ≡ (after_write image.old m place bytes.now).image }
{
    if let Err(answer) = admit(image.len(), m, place, bytes.len()) {
        return Outcome { answer, mapping: m };
    }
    Outcome::accepted(save::writing::write_save(image, m, place, bytes))
}

// The bytes of the save that a mapping belongs to, 0 for a length that is no chip's.
pub fn len(m: Mapping) -> usize
    ensures { result ≡ len_of m }
{
    m.len()
}

// The tests of commit: 8, then 10.
#[tactic(auto, unfolding(crate::specs::Commit::commit_answer))]
fn admit_commit(image_len: usize, m: Mapping) -> Result<(), Answer>
    ensures { result ≡ admitted (commit_answer image_len m) }
{
    if !m.fits(image_len) {
        return Err(Answer::DoesNotFit);
    }
    if let Some(v) = m.high_count() {
        return Err(Answer::CountTooHigh(v));
    }
    Ok(())
}

// Commits: new tickets for changed blocks on small chips, block zero from the mapping, and an erased journal; no block is
// changed any more, and no data block is stored to. A refusal (8: the mapping does not fit the image; 10: a count above 127
// on a 1 MiB chip, at the first such block) stores nothing and hands the mapping back as it came.
#[tactic(auto, using(tickets::proofs::Fitting::fits_lies, crate::proofs::Granted::granted_commit), unfolding(crate::specs::Commit::after_commit, crate::specs::Commit::committed_on))]
pub fn commit(image: &mut [u8], m: Mapping) -> Outcome
    ensures value { result ≡ outcome (commit_answer (length image.old) m) (after_commit image.old m).mapping }
    ensures image_after { image.new ≡ (after_commit image.old m).image }
{
    if let Err(answer) = admit_commit(image.len(), m) {
        return Outcome { answer, mapping: m };
    }
    match Chip::from_len(image.len()) {
        Some(kind) => Outcome::accepted(committing::commit_on(image, m, kind)),
        None => Outcome::accepted(m),
    }
}

// Formats an image of one of the chips' lengths: block zero anew, and data blocks as they are. Another length is refused
// with 1 and left as it is.
#[tactic(auto, using(tickets::proofs::Fitting::known_long), unfolding(crate::specs::Format::format_answer, crate::specs::Format::after_format))]
pub fn format(image: &mut [u8]) -> Answer
    ensures value { result ≡ format_answer (length image.old) }
    ensures image_after { image.new ≡ after_format image.old }
{
    let Some(kind) = Chip::from_len(image.len()) else {
        return Answer::WrongLength;
    };
    block_zero::format_zero(image, kind);
    Answer::Accepted
}
