// The journal of block zero, and steps 1 to 6 of opening, which need no more than block zero and the image's length. An inner
// crate: its callers lend block zero, as an array of its bytes, and a step gives the mapping to go on with or its refusal.
#![tactic(auto)]

ghost use Rattle.std.specs.Prelude.{◌≡◌, take, drop};
ghost use Rattle.lists.specs.Words.{tabulate, rep};
ghost use Rattle.chip.specs.Figures.{layout_of, slot_count, sectors};
ghost use Rattle.mapping.specs.Outcomes.{ComesTo};
ghost use Rattle.mapping.specs.Blocks.{with_tickets};
ghost use Rattle.journal.specs.Entries.{slot_at, entry_head, twins, entry_of, count_before, allowed};
ghost use Rattle.journal.specs.Replay.{journal_of};
ghost use Rattle.journal.specs.Steps.{step6, steps4to6, steps2to6, steps1to6};

use answers::Answer;
use chip::Chip;
use mapping::{Block, Condition, Mapping, Physical, Virtual};

// A journal entry: v moves from q to p with count c, and w, which had p, is freed with q and count d.
#[derive(Clone, Copy)]
pub struct Entry {
    pub v: Virtual,
    pub w: Virtual,
    pub p: Physical,
    pub q: Physical,
    pub c: u8,
    pub d: u8,
    pub tickets: [u8; Chip::SECTORS],
}

// The bytes of an entry before its tickets: v, w, p, q, c and d.
const HEAD: usize = 6;

// The bytes of an entry; a slot holds two copies of it.
const ENTRY: usize = HEAD + Chip::SECTORS;

// Step 4: whether the two copies of a slot are the same.
fn copies_equal(slot: &[u8; Chip::SLOT]) -> bool
    ensures { result ≡ twins slot.now }
{
    &slot[..ENTRY] == &slot[ENTRY..2 * ENTRY]
}

// The tickets of a slot's first copy.
fn tickets_of(slot: &[u8; Chip::SLOT]) -> [u8; Chip::SECTORS]
    ensures { result ≡ take sectors (drop entry_head slot.now) }
{
    let mut tickets = [0u8; Chip::SECTORS];
    tickets.copy_from_slice(&slot[HEAD..ENTRY]);
    tickets
}

// The entry of a slot, from its first copy.
#[tactic(auto, unfolding(crate::specs::Entries::entry_of))]
fn entry_of(slot: &[u8; Chip::SLOT]) -> Entry
    ensures { result ≡ entry_of slot.now }
{
    Entry {
        v: Virtual(slot[0]),
        w: Virtual(slot[1]),
        p: Physical(slot[2]),
        q: Physical(slot[3]),
        c: slot[4],
        d: slot[5],
        tickets: tickets_of(slot),
    }
}

// Whether w had the count before c; c is at least 1.
fn count_before(count: u8, c: u8) -> bool
    ensures { result ≡ count_before count c }
{
    c.checked_sub(1) == Some(count)
}

// Step 5's tests of an entry, where a and b are the records of v and w.
fn is_allowed(kind: Chip, a: Block, b: Block, e: Entry) -> bool
    ensures { result ≡ allowed (layout_of kind) a b e }
{
    let v = Chip::virtual_blocks(kind);
    let p = Chip::physical_blocks(kind);
    let virtuals = ((e.v.0 as usize) < v) & ((e.w.0 as usize) < v);
    let inside_p = (1 <= e.p.0) & ((e.p.0 as usize) < p);
    let inside_q = (1 <= e.q.0) & ((e.q.0 as usize) < p);
    let numbers = (a.physical == e.q) & (b.physical == e.p);
    let counts = (a.count == e.d) & count_before(b.count, e.c);
    virtuals & (inside_p & inside_q) & numbers & b.condition.is_free() & counts
}

// The tickets of an applied entry on a small chip: w's first, then v's.
fn with_entry_tickets(m: Mapping, e: Entry) -> Mapping
    ensures { result ≡ with_tickets (with_tickets m e.w.0 (rep sectors 0)) e.v.0 e.tickets }
{
    m.with_tickets(e.w, [0u8; Chip::SECTORS])
        .with_tickets(e.v, e.tickets)
}

// The slots of the journal, up to the end of block zero.
#[tactic(auto, using(crate::proofs::Chunks::slots_chunked))]
fn slots_of(zero: &[u8; Chip::BLOCK], kind: Chip) -> &[[u8; Chip::SLOT]]
    ensures { result.now ≡ tabulate (slot_at (layout_of kind) zero.now) (slot_count (layout_of kind)) }
{
    let (slots, _) = zero[Chip::journal_start(kind)..].as_chunks::<{ Chip::SLOT }>();
    slots
}

// Steps 4 and 5: the entries of the journal, applied to m slot by slot. Records are stored in place, w's before v's.
#[tactic(auto, using(crate::proofs::Turns::turns), unfolding(crate::specs::Replay::journal_of))]
fn replay(m: Mapping, kind: Chip, zero: &[u8; Chip::BLOCK]) -> Result<Mapping, Answer>
    ensures { ComesTo result (journal_of (layout_of kind) m zero.now) }
{
    let mut n = m;
    let slots = slots_of(zero, kind);
    for (k, slot) in slots.iter().enumerate() {
        if !copies_equal(slot) {
            return Err(Answer::CopiesDiffer(k));
        }
        if slot[0] == Chip::ERASED {
            return Ok(n);
        }
        let e = entry_of(slot);
        let v = e.v.at();
        let w = e.w.at();
        if !is_allowed(kind, n.blocks[v], n.blocks[w], e) {
            return Err(Answer::BadEntry(k));
        }
        n.blocks[w] = Block {
            physical: e.q,
            count: e.d,
            condition: Condition::Free,
        };
        n.blocks[v] = Block {
            physical: e.p,
            count: e.c,
            condition: Condition::Clean,
        };
        if !Chip::is_large(kind) {
            n = with_entry_tickets(n, e);
        }
    }
    Ok(n)
}

// Step 6: the reserved block is free.
#[tactic(auto, unfolding(crate::specs::Steps::step6))]
fn reserved_step(m: Mapping, kind: Chip) -> Result<Mapping, Answer>
    ensures { ComesTo result (step6 (layout_of kind) m) }
{
    if !m.reserved_free(kind) {
        return Err(Answer::ReservedInUse(Chip::virtual_blocks(kind) - 1));
    }
    Ok(m)
}

// Steps 4 to 6.
fn after_map(m: Mapping, kind: Chip, zero: &[u8; Chip::BLOCK]) -> Result<Mapping, Answer>
    ensures { ComesTo result (steps4to6 (layout_of kind) zero.now m) }
{
    let n = replay(m, kind, zero)?;
    reserved_step(n, kind)
}

// Steps 2 to 6 on block zero.
#[tactic(auto, unfolding(crate::specs::Steps::steps2to6))]
pub fn open_zero(zero: &[u8; Chip::BLOCK], kind: Chip) -> Result<Mapping, Answer>
    ensures { ComesTo result (steps2to6 (layout_of kind) zero.now) }
{
    if !block_map::sum_holds(zero, kind) {
        return Err(Answer::WrongMapSum);
    }
    let m = block_map::load_map(zero, kind);
    match block_map::bad_number(m, kind) {
        Some(v) => Err(Answer::BadNumber(v)),
        None => after_map(m, kind, zero),
    }
}

// Steps 1 to 6 for an image of this length that begins with block zero.
#[tactic(auto, unfolding(crate::specs::Steps::steps1to6))]
pub fn open_map(zero: &[u8; Chip::BLOCK], len: usize) -> Result<Mapping, Answer>
    ensures { ComesTo result (steps1to6 zero.now len) }
{
    let kind = Chip::from_len(len).ok_or(Answer::WrongLength)?;
    open_zero(zero, kind)
}
