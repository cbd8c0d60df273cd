//! The cases at the limits that the rule book states, shown of the definitions that the contracts
//! of the other crates speak of.
#![tactic(auto)]

ghost use Rattle.limits.specs.Cases.{StatedCases};

/// All of them hold.
pub fn stated_cases_hold()
    ensures { StatedCases }
{}
