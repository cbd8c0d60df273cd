//! The first few regions by any policy.
ghost use Rattle.std.specs.Prelude.{◌≡◌, ◌<◌, min, length};
ghost use Rattle.std.specs.List.Sorted.{IsPermutation};
ghost use Rattle.policy.specs.Choice.{Apart, Brought, FirstOf, Leads, OneChoice};

use crate::{Policy, Summary};

/// The place, from `from` on, of a candidate that no other from there on comes before.
fn best_from<P: Policy>(policy: &P, candidates: &[Summary], from: usize) -> usize
    requires { from < length candidates.now }
    ensures { FirstOf (P.before policy.now) candidates.now from (length candidates.now) result }
{
    let mut best = from;
    // From a part of the candidates on: `skip` goes over those before it one by one.
    for (later, candidate) in candidates[from + 1..].iter().enumerate() {
        if policy.comes_before(candidate, &candidates[best]) {
            best = from + 1 + later;
        }
    }
    best
}

/// Exchanges the candidate at `place` for one, from there on, that no other from there on comes before.
fn bring_best<P: Policy>(policy: &P, candidates: &mut [Summary], place: usize)
    requires { place < length candidates.old }
    ensures same { IsPermutation candidates.old candidates.new }
    ensures brought { Brought (P.before policy.now) candidates.old place candidates.new }
{
    let best = best_from(policy, candidates, place);
    candidates.swap(place, best);
}

/// Puts the first `count` candidates by `policy` at the front, in its order, and tells how many they are: all, where there
/// are fewer than `count`. The other candidates follow in any order.
///
/// The order is certain where no two candidates are of one region: of two that are, a policy need not put either before the
/// other.
pub fn choose<P: Policy>(policy: &P, candidates: &mut [Summary], count: usize) -> usize
    ensures number { result ≡ min count (length candidates.old) }
    ensures same { IsPermutation candidates.old candidates.new }
    ensures first { Apart candidates.old → Leads (P.before policy.now) result candidates.new }
{
    let chosen = count.min(candidates.len());
    // Each turn exchanges two candidates, so it takes a place: an iterator over the candidates would hold them.
    for place in 0..chosen {
        bring_best(policy, candidates, place);
    }
    chosen
}

/// Does nothing. Its contract says that the choice is determined: where candidates of different regions are put in two orders,
/// each with the first of them by the policy in front, the two begin alike.
pub fn one_choice<P: Policy>(_policy: &P)
    ensures { OneChoice (P.before _policy.now) }
{}
