//! The policies that go by one number of a summary, its key: the smaller key first, and at equal keys the lower region.
ghost use Rattle.std.specs.Prelude.{◌≡◌};
ghost use Rattle.policy.specs.Keyed.{by_key, key_lower};
ghost use Rattle.std.proofs.Common.{rules};

use crate::{Policy, Summary};

/// Fewer live words first, then the lower region.
#[derive(Clone, Copy)]
pub struct GarbageFirst;

/// The smaller stamp first, then the lower region.
#[derive(Clone, Copy)]
pub struct OldestFirst;

/// Whether `a` has the smaller key or, at equal keys, the lower region.
//
// No comparison of pairs, which takes a choice twice as long.
fn key_lower(a_key: u32, a: &Summary, b_key: u32, b: &Summary) -> bool
    ensures { result ≡ key_lower a_key a.now.region b_key b.now.region }
{
    a_key < b_key || (a_key == b_key && a.region < b.region)
}

impl Policy for GarbageFirst {
    ghost before = { λ _. by_key (λ s. s.live) };

    ghost ordered = { Prim.search rules };

    fn comes_before(&self, a: &Summary, b: &Summary) -> bool {
        key_lower(a.live, a, b.live, b)
    }
}

impl Policy for OldestFirst {
    ghost before = { λ _. by_key (λ s. s.stamp) };

    ghost ordered = { Prim.search rules };

    fn comes_before(&self, a: &Summary, b: &Summary) -> bool {
        key_lower(a.stamp, a, b.stamp, b)
    }
}
