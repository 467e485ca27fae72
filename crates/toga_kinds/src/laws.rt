//! What holds of the kinds of any turns: each contract is a law, and the bodies do nothing.
ghost use Rattle.toga_kinds.specs.Kinds.{KindsAddUpOn, KindsAddUp, ProcessorsAddUp};

/// Each turn is of exactly one kind: on each processor, and on all, the numbers of the six kinds add up to the turns.
pub fn kinds_add_up()
    ensures one { KindsAddUpOn }
    ensures all { KindsAddUp }
{}

/// The turns of the processors add up to all turns.
#[tactic(auto, using(crate::proofs::Sums::processors_add_up))]
pub fn processors_add_up()
    ensures { ProcessorsAddUp }
{}
