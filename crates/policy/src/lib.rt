//! Which regions a collection takes first: policies as orders on the summaries of regions, and the choice of the first few
//! by any policy.
#![tactic(auto)]

mod choice;
mod keyed;

ghost use Rattle.std.specs.Prelude.{◌≡◌, Bool};
ghost use Rattle.policy.specs.declared.Summary.{Summary};
ghost use Rattle.policy.specs.Order.{Ordered};

pub use choice::{choose, one_choice};
pub use keyed::{GarbageFirst, OldestFirst};

/// What a policy sees of a region.
#[derive(Clone, Copy, PartialEq, Eq, Debug)]
pub struct Summary {
    /// The number of the region, from 0 to 31.
    pub region: u32,
    /// How many of its words are live, at most its fill.
    pub live: u32,
    /// How many of its words are in use, from 1 to 1,024.
    pub fill: u32,
    /// The stamp that it was given when it was opened.
    pub stamp: u32,
}

/// A fixed order on the summaries of regions.
///
/// None comes before itself. Of two with different regions exactly one comes before the other. What comes before a second
/// that comes before a third, comes before the third.
pub trait Policy {
    ghost before: { Self → Summary → Summary → Bool };

    /// Whether `a` comes before `b`.
    fn comes_before(&self, a: &Summary, b: &Summary) -> bool
        ensures { result ≡ before self.now a.now b.now };

    ghost ordered: { (p : Self) → Ordered (before p) };
}
