//! Laws of the definitions and worked lists of events, each the contract of a function that does nothing.

ghost use Rattle.session_world.specs.Laws as laws;
ghost use Rattle.session_world.specs.Worked as worked;

/// Behind each list of events the journal is a history of the agent, and in Down the broker has no connection.
#[tactic(auto, using(crate::proofs::Steady::stay_ready))]
pub fn stay_ready()
    ensures { laws.StayReady }
{}

/// A QoS 2 publish whose PUBREC is lost is passed on once, and done.
#[tactic(auto, using(crate::proofs::Examples::passed_once))]
pub fn passed_once()
    ensures { worked.PassedOnce }
{}

/// The first four events of a seed connect and subscribe.
#[tactic(auto, using(crate::proofs::Examples::begins_empty))]
pub fn begins_empty()
    ensures { worked.BeginsEmpty }
{}

/// A message at QoS 2 whose PUBREC is lost arrives twice and is passed to the task once.
#[tactic(auto, using(crate::proofs::Examples::told_once))]
pub fn told_once()
    ensures { worked.ToldOnce }
{}
