//! Which step of the collector each phase admits.
ghost use Rattle.marking.specs.Admission.{admitted};
ghost use Rattle.std.specs.Prelude.{◌≡◌};

use memory::Phase;
use model::Refusal;

/// A step of the collector.
#[derive(Clone, Copy)]
pub enum Step {
    /// Begins a marking.
    Begin,
    /// Scans one object, or ends the marking.
    Mark,
    /// Gives garbage back.
    Collect,
}

/// Whether a step is admitted in a phase, or why it is refused.
pub fn admit(phase: Phase, step: Step) -> Result<(), Refusal>
    ensures { result ≡ admitted phase step }
{
    // The rule is this table: for each phase and each step whether the step is admitted.
    match (phase, step) {
        (Phase::Idle, Step::Begin) => Ok(()),
        (Phase::Idle, Step::Mark) => Err(Refusal::NotMarking),
        (Phase::Idle, Step::Collect) => Err(Refusal::NotMarked),
        (Phase::Marking, Step::Begin) => Err(Refusal::AlreadyMarking),
        (Phase::Marking, Step::Mark) => Ok(()),
        (Phase::Marking, Step::Collect) => Err(Refusal::NotMarked),
        (Phase::Marked, Step::Begin) => Ok(()),
        (Phase::Marked, Step::Mark) => Err(Refusal::NotMarking),
        (Phase::Marked, Step::Collect) => Ok(()),
    }
}
