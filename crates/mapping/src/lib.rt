// The mapping that calls hand about by value, and the tests behind answers 8 to 10.
//
// Everything here takes any argument. Nobody outside this crate writes a `Mapping` out by its fields (`len` is private):
// `blank`, `new` and `with_tickets` make one.
#![tactic(auto)]

ghost use Rattle.std.specs.Prelude.{◌≡◌, ◌<◌, not};
ghost use Rattle.lists.specs.Words.{tabulate, how_many};
ghost use Rattle.chip.specs.Figures.{layout_of, virtuals, records};
ghost use Rattle.mapping.specs.Blocks.{is_free, free_at, blank, mapping_of, with_tickets, len_of, in_use_of};
ghost use Rattle.mapping.specs.Fits.{appeared, each_once, reserved_free, fits_own, fits};
ghost use Rattle.mapping.specs.Limits.{in_save, high_count_on, high_count};
ghost use Rattle.mapping.specs.Outcomes.{outcome, refused, outcome_of};

use answers::Answer;
use chip::Chip;

// The number of a virtual block.
#[derive(Clone, Copy, PartialEq, Eq, Default)]
pub struct Virtual(pub u8);

impl Virtual {
    // Where the block's record stands in a mapping. A physical number has no such way to a record.
    pub fn at(self) -> usize
        ensures value { result ≡ self.0 }
        ensures within { result < records }
    {
        self.0 as usize
    }
}

// The number of a physical block.
#[derive(Clone, Copy, PartialEq, Eq, Default)]
pub struct Physical(pub u8);

// What a block has been through.
#[derive(Clone, Copy, PartialEq, Eq, Default)]
pub enum Condition {
    #[default]
    Free,
    Clean,
    // Written since the last commit.
    Changed,
}

impl Condition {
    pub fn is_free(self) -> bool
        ensures { result ≡ is_free self }
    {
        self == Condition::Free
    }
}

// What a mapping holds of one virtual block.
#[derive(Clone, Copy, PartialEq, Eq, Default)]
pub struct Block {
    pub physical: Physical,
    pub count: u8,
    pub condition: Condition,
}

// Where each virtual block lies and what state it is in, with the tickets of all sectors beside: those of block v from
// 8 × v on. Records and tickets from V on mean nothing and are kept by every call, and so are all tickets of a large chip.
#[derive(Clone, Copy)]
pub struct Mapping {
    // The length of the image that it belongs to.
    len: usize,
    pub blocks: [Block; Chip::RECORDS],
    pub tickets: [u8; Chip::RECORDS * Chip::SECTORS],
}

impl Mapping {
    // What a refused open hands back: length 0, all numbers zero, all blocks free.
    pub fn blank() -> Mapping
        ensures { result ≡ blank }
    {
        Mapping {
            len: 0,
            blocks: [Block::default(); Chip::RECORDS],
            tickets: [0u8; Chip::RECORDS * Chip::SECTORS],
        }
    }

    // The mapping of an image of this length, with these records and tickets.
    pub fn new(
        image_len: usize,
        blocks: [Block; Chip::RECORDS],
        tickets: [u8; Chip::RECORDS * Chip::SECTORS],
    ) -> Mapping
        ensures { result ≡ mapping_of image_len blocks tickets }
    {
        Mapping {
            len: image_len,
            blocks,
            tickets,
        }
    }

    // The length of the image that the mapping belongs to.
    pub fn image_len(self) -> usize
        ensures { result ≡ self.len }
    {
        self.len
    }

    // The tickets of block v become t.
    pub fn with_tickets(mut self, v: Virtual, t: [u8; Chip::SECTORS]) -> Mapping
        ensures { result ≡ with_tickets self v.0 t }
    {
        let at = v.at() * Chip::SECTORS;
        self.tickets[at..at + Chip::SECTORS].copy_from_slice(&t);
        self
    }

    // The bytes of the save, 0 for a length that is no chip's. Whether the mapping fits is not looked at.
    #[tactic(auto, unfolding(crate::specs::Blocks::len_of))]
    pub fn len(self) -> usize
        ensures { result ≡ len_of self }
    {
        Chip::from_len(self.len).map_or(0, Chip::save_len)
    }

    // The number of in-use blocks among the first V of this chip.
    fn in_use_on(self, kind: Chip) -> usize
        ensures { result ≡ how_many (λ v. not (free_at self v)) (virtuals (layout_of kind)) }
    {
        let v = Chip::virtual_blocks(kind);
        self.blocks[..v]
            .iter()
            .filter(|b| !b.condition.is_free())
            .count()
    }

    // The number of in-use blocks among the first V; 0 for a length that is no chip's.
    #[tactic(auto, unfolding(crate::specs::Blocks::in_use_of))]
    pub fn in_use(self) -> usize
        ensures { result ≡ in_use_of self }
    {
        Chip::from_len(self.len).map_or(0, |kind| self.in_use_on(kind))
    }

    // Which physical numbers the first V blocks have, as 256 flags.
    fn seen_numbers(self, kind: Chip) -> [bool; Chip::RECORDS]
        ensures { result ≡ tabulate (appeared self (virtuals (layout_of kind))) records }
    {
        let v = Chip::virtual_blocks(kind);
        let mut seen = [false; Chip::RECORDS];
        for b in &self.blocks[..v] {
            seen[usize::from(b.physical.0)] = true;
        }
        seen
    }

    // Whether the first V physical numbers are 1 to P − 1, each once: V numbers among which all of these appear are just these.
    fn each_once(self, kind: Chip) -> bool
        ensures { result ≡ each_once (layout_of kind) self }
    {
        let v = Chip::virtual_blocks(kind);
        let seen = self.seen_numbers(kind);
        let mut ok = true;
        for s in &seen[1..=v] {
            ok &= *s;
        }
        ok
    }

    // Whether the reserved block, the last virtual one, is free.
    pub fn reserved_free(self, kind: Chip) -> bool
        ensures { result ≡ reserved_free (layout_of kind) self }
    {
        let last = Virtual((Chip::virtual_blocks(kind) - 1) as u8);
        self.blocks[last.at()].condition.is_free()
    }

    // Whether the mapping is one that an image of its own length can have.
    fn fits_own(self) -> bool
        ensures { result ≡ fits_own self }
    {
        Chip::from_len(self.len).is_some_and(|kind| self.each_once(kind)
            && self.reserved_free(kind))
    }

    // Whether the mapping fits an image of this length: answer 8 is given exactly when it does not.
    pub fn fits(self, image_len: usize) -> bool
        ensures { result ≡ fits image_len self }
    {
        self.len == image_len && self.fits_own()
    }

    // The first block of a large chip whose count does not go into the seven bits of an item.
    #[tactic(auto, using(crate::proofs::Highs::high_small))]
    fn high_count_on(self, kind: Chip) -> Option<usize>
        ensures { result ≡ high_count_on (layout_of kind) self }
    {
        if !Chip::is_large(kind) {
            return None;
        }
        let v = Chip::virtual_blocks(kind);
        let blocks = &self.blocks[..v];
        blocks.iter().position(|b| Chip::IN_USE <= b.count)
    }

    // The block at which commit answers 10, if there is one; free blocks count too.
    #[tactic(auto, unfolding(crate::specs::Limits::high_count))]
    pub fn high_count(self) -> Option<usize>
        ensures { result ≡ high_count self }
    {
        Chip::from_len(self.len).and_then(|kind| self.high_count_on(kind))
    }
}

// Whether `length` bytes from `place` on lie in a save of `save_len` bytes: answer 9 is given exactly when they do not.
pub fn in_save(save_len: usize, place: usize, length: usize) -> bool
    ensures { result ≡ in_save save_len place length }
{
    place <= save_len && length <= save_len - place
}

// What a call hands back: how it ended, and the mapping to go on with.
#[derive(Clone, Copy)]
pub struct Outcome {
    pub answer: Answer,
    pub mapping: Mapping,
}

impl Outcome {
    pub fn accepted(mapping: Mapping) -> Outcome
        ensures { result ≡ outcome Answer.Accepted mapping }
    {
        Outcome {
            answer: Answer::Accepted,
            mapping,
        }
    }

    // A refused open, with the blank mapping.
    pub fn refused(answer: Answer) -> Outcome
        ensures { result ≡ refused answer }
    {
        Outcome {
            answer,
            mapping: Mapping::blank(),
        }
    }
}

// What steps come to: the mapping that they found, or a refusal with the blank one.
impl From<Result<Mapping, Answer>> for Outcome {
    ghost from_gives = { λ steps outcome. outcome ≡ outcome_of steps };

    fn from(steps: Result<Mapping, Answer>) -> Outcome {
        match steps {
            Ok(m) => Outcome::accepted(m),
            Err(answer) => Outcome::refused(answer),
        }
    }
}
