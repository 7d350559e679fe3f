// How mappings, answers and outcomes cross to C: the same structs with each condition as a byte. A byte that is no condition makes
// a mapping one that fits no image.
#![tactic(auto)]

ghost use Rattle.std.specs.Prelude.{◌≡◌};
ghost use Rattle.crossing.specs.Crossing.{condition_no, condition_of, block_c, block_from_c, known, to_c, from_c, answer_c, answered, outcome_c};

use answers::Answer;
use chip::Chip;
use mapping::{Block, Condition, Mapping, Outcome, Physical};
use std::array;

// A block's record: lw_block.
#[repr(C)]
#[derive(Clone, Copy)]
pub struct CBlock {
    pub physical: u8,
    pub count: u8,
    pub condition: u8,
}

// The bytes that conditions cross as.
impl CBlock {
    pub const FREE: u8 = 0;

    pub const CLEAN: u8 = 1;

    pub const CHANGED: u8 = 2;
}

// A mapping: lw_mapping.
#[repr(C)]
#[derive(Clone, Copy)]
pub struct CMapping {
    pub len: usize,
    pub blocks: [CBlock; Chip::RECORDS],
    pub tickets: [u8; Chip::RECORDS * Chip::SECTORS],
}

// Number and place of an answer: lw_answer.
#[repr(C)]
#[derive(Clone, Copy)]
pub struct CAnswer {
    pub number: u8,
    pub place: usize,
}

// An answer and the mapping to go on with: lw_outcome.
#[repr(C)]
#[derive(Clone, Copy)]
pub struct COutcome {
    pub answer: CAnswer,
    pub mapping: CMapping,
}

// The byte of a condition.
fn condition_number(c: Condition) -> u8
    ensures { result ≡ condition_no c }
{
    match c {
        Condition::Free => CBlock::FREE,
        Condition::Clean => CBlock::CLEAN,
        Condition::Changed => CBlock::CHANGED,
    }
}

// The condition of a byte that is one.
fn condition_of(n: u8) -> Condition
    ensures { result ≡ condition_of n }
{
    match n {
        CBlock::CHANGED.. => Condition::Changed,
        CBlock::CLEAN => Condition::Clean,
        _ => Condition::Free,
    }
}

// A block's record on its way out.
impl From<Block> for CBlock {
    ghost from_gives = { λ b c. c ≡ block_c b };

    fn from(b: Block) -> CBlock {
        CBlock {
            physical: b.physical.0,
            count: b.count,
            condition: condition_number(b.condition),
        }
    }
}

// A block's record on its way in.
impl From<CBlock> for Block {
    ghost from_gives = { λ c b. b ≡ block_from_c c };

    fn from(c: CBlock) -> Block {
        Block {
            physical: Physical(c.physical),
            count: c.count,
            condition: condition_of(c.condition),
        }
    }
}

// Whether each condition byte, of the records past V too, is a condition.
#[tactic(auto, using(lists::proofs::Tests::all_more), unfolding(lists::specs::Words::all))]
fn is_known(from: &[CBlock; Chip::RECORDS]) -> bool
    ensures { result ≡ known from.now }
{
    let mut ok = true;
    for b in from {
        ok &= b.condition <= CBlock::CHANGED;
    }
    ok
}

// A mapping on its way out.
impl From<Mapping> for CMapping {
    ghost from_gives = { λ m c. c ≡ to_c m };

    fn from(m: Mapping) -> CMapping {
        let len = m.image_len();
        let from = m.blocks;
        let blocks = array::from_fn(|i| CBlock::from(from[i]));
        let tickets = m.tickets;
        CMapping {
            len,
            blocks,
            tickets,
        }
    }
}

// A mapping on its way in: the blank one, which fits no image, where a condition byte is no condition.
impl From<CMapping> for Mapping {
    ghost from_gives = { λ c m. m ≡ from_c c };

    fn from(c: CMapping) -> Mapping {
        if !is_known(&c.blocks) {
            return Mapping::blank();
        }
        let from = c.blocks;
        let blocks = array::from_fn(|i| Block::from(from[i]));
        let tickets = c.tickets;
        Mapping::new(c.len, blocks, tickets)
    }
}

// An answer on its way out.
impl From<Answer> for CAnswer {
    ghost from_gives = { λ a c. c ≡ answer_c a };

    fn from(a: Answer) -> CAnswer {
        CAnswer {
            number: a.number(),
            place: a.place(),
        }
    }
}

// An answer with a mapping that stays as it came.
pub fn answered(a: Answer, mapping: CMapping) -> COutcome
    ensures { result ≡ answered a mapping }
{
    COutcome {
        answer: CAnswer::from(a),
        mapping,
    }
}

// An outcome on its way out, with the mapping that the call got: a refusal hands that back as it came.
pub fn outcome_to_c(o: Outcome, c: CMapping) -> COutcome
    ensures { result ≡ outcome_c o c }
{
    if o.answer == Answer::Accepted {
        return answered(o.answer, CMapping::from(o.mapping));
    }
    answered(o.answer, c)
}
