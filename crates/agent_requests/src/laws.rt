//! Laws of the definitions, each the contract of a function that does nothing.

ghost use Rattle.agent_requests.specs.Laws as laws;

/// The requests that a journal takes of a task are those that were taken of it from the queue, in their order.
#[tactic(auto, using(crate::proofs::Taken::takes_are_requests))]
pub fn takes_are_requests()
    ensures { laws.TakesAreRequests }
{}
