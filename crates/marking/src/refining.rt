//! Refining, one card at a time.
ghost use Rattle.marking.specs.Refining.{enter_object, enter_objects, refine_step};
ghost use Rattle.std.specs.Prelude.{◌≡◌, ◌<◌};
ghost use Rattle.memory.specs.State.{view};

use crate::referents::referent;
use layout::Layout;
use memory::Memory;
use store::Store;

/// What a call of `refine` did.
#[derive(Clone, Copy)]
pub enum Refined {
    /// It refined a card.
    Refined,
    /// All cards were clean.
    Clean,
}

/// Enters a card in the table of each region that the object at a place refers to, but for the card's own, if an object starts
/// there.
#[tactic(auto, unfolding(crate::specs::Refining::enter_fields))]
fn enter_object<S: Store, L: Layout>(memory: &mut Memory<S, L>, card: u32, place: u32)
    ensures { view S.words S.spare memory.new ≡ enter_object L.shape (view S.words S.spare memory.old) card place }
{
    if !memory.starts.contains(place as usize) {
        return;
    }
    let header = memory.word(place as usize);
    let size = L::size(header);
    for position in 1..size {
        if let Some(target) = referent(memory, place, header, position)
            && target / 1024 != card / 16
        {
            memory.cards.remember(target / 1024, card);
        }
    }
}

/// Does so for the objects whose headers lie in the card.
#[tactic(auto, using(crate::proofs::Walks::objects_none, crate::proofs::Walks::objects_more))]
fn enter_objects<S: Store, L: Layout>(memory: &mut Memory<S, L>, card: u32)
    requires { card < 512 }
    ensures { view S.words S.spare memory.new ≡ enter_objects L.shape (view S.words S.spare memory.old) card 64 }
{
    for place in 64 * card..64 * card + 64 {
        enter_object(memory, card, place);
    }
}

/// Refines the lowest dirty card: it is entered in the table of each other region that its objects refer to, and then clean.
pub fn refine<S: Store, L: Layout>(memory: &mut Memory<S, L>) -> Refined
    ensures { (result, view S.words S.spare memory.new) ≡ refine_step L.shape (view S.words S.spare memory.old) }
{
    match memory.cards.first_dirty() {
        Some(card) => {
            enter_objects(memory, card);
            memory.cards.make_clean(card);
            Refined::Refined
        }
        None => Refined::Clean,
    }
}
