//! Marking, one object at a time.
ghost use Rattle.marking.specs.Scanning.{begin_step, done, lives_from, mark_step, marked_from, scanned, shaded_roots};
ghost use Rattle.memory.specs.State.{view};
ghost use Rattle.std.specs.Prelude.{◌≡◌};

use crate::admission::{Step, admit};
use crate::referents::referent;
use layout::Layout;
use memory::{Memory, Phase};
use model::Refusal;
use store::Store;

/// What a call of `mark` did.
#[derive(Clone, Copy)]
pub enum Marked {
    /// It scanned an object.
    Scanned,
    /// Nothing was pending: the marking is done.
    Done,
}

/// The objects of all roots are marked and made pending.
#[tactic(auto, using(crate::proofs::Walks::roots_kept), unfolding(crate::specs::Scanning::shaded_roots))]
fn shade_roots<S: Store, L: Layout>(memory: &mut Memory<S, L>)
    ensures { view S.words S.spare memory.new ≡ shaded_roots (view S.words S.spare memory.old) 64 }
{
    // By index: going over the array itself copies it, and over a loan of it a proof can't speak of the memory.
    for k in 0..64 {
        if let Some(place) = memory.roots[k] {
            memory.marks.shade(place);
        }
    }
}

/// Begins a marking: what the roots hold is marked and pending, and nothing else is marked.
pub fn begin<S: Store, L: Layout>(memory: &mut Memory<S, L>) -> Result<(), Refusal>
    ensures { (result, view S.words S.spare memory.new) ≡ begin_step (view S.words S.spare memory.old) }
{
    admit(memory.phase, Step::Begin)?;
    memory.marks.clear();
    shade_roots(memory);
    memory.phase = Phase::Marking;
    Ok(())
}

/// Scans the object at a place: it is pending no more, and what it refers to is marked and made pending, unless it is marked
/// already.
#[tactic(auto, unfolding(crate::specs::Scanning::scan_fields))]
fn scan<S: Store, L: Layout>(memory: &mut Memory<S, L>, place: u32)
    ensures { view S.words S.spare memory.new ≡ scanned L.shape (view S.words S.spare memory.old) place }
{
    let header = memory.word(place as usize);
    let size = L::size(header);
    memory.marks.finish(place, size);
    for position in 1..size {
        if let Some(target) = referent(memory, place, header, position) {
            memory.marks.shade(target);
        }
    }
}

/// The live count of each region becomes what the marking has counted there.
#[tactic(auto, unfolding(crate::specs::Scanning::lives_from))]
fn count_lives<S: Store, L: Layout>(memory: &mut Memory<S, L>)
    ensures { view S.words S.spare memory.new ≡ lives_from (view S.words S.spare memory.old) 32 }
{
    for g in 0..32 {
        let live = memory.marks.weight(g);
        memory.regions.set_live(g, live);
    }
}

/// Ends the marking.
fn finish<S: Store, L: Layout>(memory: &mut Memory<S, L>)
    ensures { view S.words S.spare memory.new ≡ done (view S.words S.spare memory.old) }
{
    count_lives(memory);
    memory.phase = Phase::Marked;
}

/// Scans the pending object at the lowest place, or ends the marking where none is pending.
pub fn mark<S: Store, L: Layout>(memory: &mut Memory<S, L>) -> Result<Marked, Refusal>
    ensures { (result, view S.words S.spare memory.new) ≡ mark_step L.shape (view S.words S.spare memory.old) }
{
    admit(memory.phase, Step::Mark)?;
    Ok(advance(memory))
}

/// The next step of a marking under way.
fn advance<S: Store, L: Layout>(memory: &mut Memory<S, L>) -> Marked
    ensures { (result, view S.words S.spare memory.new) ≡ marked_from L.shape (view S.words S.spare memory.old) }
{
    match memory.marks.next_pending() {
        Some(place) => {
            scan(memory, place);
            Marked::Scanned
        }
        None => {
            finish(memory);
            Marked::Done
        }
    }
}
