//! The cards of a heap.
ghost use Rattle.std.specs.Prelude.{◌≡◌, ◌+◌, ◌*◌, ◌<◌, IfSome};
ghost use Rattle.bitset.specs.Set.{first_of};
ghost use Rattle.tables.specs.Cards.{cards_of, clean_cards, cleaned, dirtied, remembering, table_in};

use bitset::BitSet;

/// Which cards are dirty, and which cards each region remembers.
///
/// Contracts read it by `cards_of`. It has no `impl Model`, whose value may hold no function, as these sets are.
#[derive(Drop)]
pub struct Cards {
    dirty: BitSet<8>,
    /// For each region the cards in its table.
    remembered: [BitSet<8>; 32],
}

impl Cards {
    /// All cards are clean, and all tables empty.
    pub fn new() -> Cards
        ensures { cards_of result ≡ clean_cards }
    {
        Cards {
            dirty: BitSet::new(),
            remembered: no_tables(),
        }
    }

    /// Makes a card dirty.
    pub fn make_dirty(&mut self, card: u32)
        ensures { cards_of self.new ≡ dirtied (cards_of self.old) card }
    {
        self.dirty.insert(card as usize);
    }

    /// The lowest dirty card.
    pub fn first_dirty(&self) -> Option<u32>
        ensures value { result ≡ first_of (cards_of self.now).dirty 0 512 }
        ensures bound { IfSome result (λ card. card < 512) }
    {
        self.dirty.lowest().map(|card| card as u32)
    }

    /// Makes a card clean.
    pub fn make_clean(&mut self, card: u32)
        ensures { cards_of self.new ≡ cleaned (cards_of self.old) card }
    {
        self.dirty.remove(card as usize);
    }

    /// Enters a card in the table of a region.
    #[tactic(auto, using(crate::proofs::Tables::table_joined, crate::proofs::Tables::no_region))]
    pub fn remember(&mut self, region: u32, card: u32)
        ensures { cards_of self.new ≡ remembering (cards_of self.old) region card }
    {
        let region = region as usize;
        // A test of the index, since std says nothing of an array's elements after `get_mut`.
        if region < self.remembered.len() {
            self.remembered[region].insert(card as usize);
        }
    }

    /// Whether a card is dirty.
    pub fn is_dirty(&self, card: u32) -> bool
        ensures { result ≡ (cards_of self.now).dirty card }
    {
        self.dirty.contains(card as usize)
    }

    /// Whether a card stands in the table of a region.
    pub fn is_remembered(&self, region: u32, card: u32) -> bool
        ensures { result ≡ (cards_of self.now).table region card }
    {
        self.remembered
            .get(region as usize)
            .is_some_and(|table| table.contains(card as usize))
    }
}

/// A table with no card for each region.
fn no_tables() -> [BitSet<8>; 32]
    ensures { table_in result ≡ clean_cards.table }
{
    [BitSet::new(); 32]
}
