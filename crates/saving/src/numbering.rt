//! Numbering what the roots reach, as it is first met.
ghost use Rattle.canonical.specs.Saving.{order, referred, root_count};
ghost use Rattle.canonical.specs.Walk.{all_met, met, place_of};
ghost use Rattle.memory.specs.Edits.{reference_to};
ghost use Rattle.memory.specs.Graph.{graph_in};
ghost use Rattle.memory.specs.State.{view};
ghost use Rattle.saving.specs.Numbering.{Numbers, values};
ghost use Rattle.saving.specs.Saved.{room};
ghost use Rattle.std.specs.Prelude.{◌≡◌, ◌≤◌, [], ◌∷◌, ◌==◌, length, map, position};

use layout::Layout;
use memory::{Memory, reference_to};
use model::Refusal;
use store::Store;

/// The first place of a reference among entries.
fn position_of(entries: &[u32], reference: u32) -> Option<usize>
    ensures { result ≡ position (λ entry. entry == reference) entries.now }
{
    entries.iter().position(|entry| *entry == reference)
}

/// The same, or how many entries there are where it does not stand among them.
pub(crate) fn place_of(entries: &[u32], reference: u32) -> usize
    ensures within { result ≤ length entries.now }
    ensures place { result ≡ place_of reference entries.now }
{
    position_of(entries, reference).unwrap_or(entries.len())
}

/// Puts a reference behind the first `count` entries, unless it is nil or one of them. Tells how many entries there are then.
fn meet(list: &mut [u32], count: usize, reference: u32) -> Result<usize, Refusal>
    requires { count ≤ room (length list.old) }
    ensures { Numbers (met reference (values list.old count)) list.new result }
{
    if reference == 0 || place_of(&list[..count], reference) < count {
        return Ok(count);
    }
    // More entries are never needed: a memory has 32,768 places for objects.
    if count == list.len().min(32_768) {
        return Err(Refusal::WorkListShort);
    }
    list[count] = reference;
    Ok(count + 1)
}

/// Begins with what roots hold.
fn meet_roots(list: &mut [u32], roots: &[Option<u32>]) -> Result<usize, Refusal>
    ensures { Numbers (all_met (map reference_to roots.now) (0 ∷ [])) list.new result }
{
    let mut count = 0;
    for root in roots {
        count = meet(list, count, reference_to(*root))?;
    }
    Ok(count)
}

/// Goes on with what the object of a reference refers to.
fn meet_referents<S: Store, L: Layout>(
    memory: &Memory<S, L>,
    list: &mut [u32],
    mut count: usize,
    reference: u32,
) -> Result<usize, Refusal>
    requires { count ≤ room (length list.old) }
    ensures { Numbers (all_met (referred L.shape (graph_in (view S.words S.spare memory.now)) reference) (values list.old count)) list.new result }
{
    let Some(place) = reference.checked_sub(1) else {
        return Ok(count);
    };
    let header = memory.word(place as usize);
    for position in 1..L::size(header) {
        if L::is_reference(header, position) {
            let word = memory.word(place as usize + position as usize);
            count = meet(list, count, word)?;
        }
    }
    Ok(count)
}

/// How many roots there are up to the last that is not nil.
pub(crate) fn root_count<S: Store, L: Layout>(memory: &Memory<S, L>) -> usize
    ensures within { result ≤ 64 }
    ensures count { result ≡ root_count (graph_in (view S.words S.spare memory.now)) }
{
    let mut count = 64;
    // No `rposition`: its contract tells of a run of calls, from which no value follows at once.
    while count > 0 && memory.roots[count - 1].is_none() {
        count -= 1;
    }
    count
}

/// Numbers what the roots reach: entry k holds the reference of object k + 1. Tells how many objects there are.
pub(crate) fn number_objects<S: Store, L: Layout>(
    memory: &Memory<S, L>,
    list: &mut [u32],
) -> Result<usize, Refusal>
    ensures { Numbers (order L.shape (graph_in (view S.words S.spare memory.now)) (room (length list.old))) list.new result }
{
    let used = root_count(memory);
    let mut count = meet_roots(list, &memory.roots[..used])?;
    let mut k = 0;
    // The entries grow in number while they are gone over, so no `for` goes over them.
    while k < count {
        let entry = list[k];
        count = meet_referents(memory, list, count, entry)?;
        k += 1;
    }
    Ok(count)
}
