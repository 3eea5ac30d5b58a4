//! Worked lists of events, each the contract of a function that does nothing.

ghost use Rattle.once_laws.specs.Worked as worked;

/// A QoS 2 publish whose PUBREC is lost is passed on once, and done.
#[tactic(auto, using(crate::proofs::Worked::passed_on))]
pub fn passed_on()
    ensures { worked.PassedOn }
{}

/// A QoS 1 publish whose PUBACK is lost is passed on twice, and done.
#[tactic(auto, using(crate::proofs::Worked::passed_on_twice))]
pub fn passed_on_twice()
    ensures { worked.PassedOnTwice }
{}

/// A message of the broker's own whose PUBREC is lost arrives twice, and its first arrival alone passes it to the task.
#[tactic(auto, using(crate::proofs::Worked::told_first))]
pub fn told_first()
    ensures { worked.ToldFirst }
{}
