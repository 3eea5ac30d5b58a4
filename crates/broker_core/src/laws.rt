//! Laws of the definitions, and a worked exchange, each the contract of a function that does nothing.

ghost use Rattle.broker_core.specs.Laws as laws;
ghost use Rattle.broker_core.specs.Worked.{IsPassedOnce};

/// A QoS 2 PUBLISH and its repeat, packet by packet.
#[tactic(auto, using(crate::proofs::Worked::is_passed_once))]
pub fn passed_once_example()
    ensures { IsPassedOnce }
{}

/// A QoS 2 PUBLISH whose identifier is in the received list isn't passed on.
#[tactic(auto, using(crate::proofs::Once::repeats_arent_passed))]
pub fn repeats_arent_passed()
    ensures { laws.RepeatsArentPassed }
{}

/// One that is passed on enters its identifier, so between this and the PUBREL it isn't passed on again.
#[tactic(auto, using(crate::proofs::Once::firsts_are_entered))]
pub fn firsts_are_entered()
    ensures { laws.FirstsAreEntered }
{}

/// At each moment no session has more than 16 unacknowledged deliveries, and no two of them have the same identifier.
#[tactic(auto, using(crate::proofs::InWindow::windows_hold))]
pub fn windows_hold()
    ensures { laws.WindowsHold }
{}

/// The identifier that a delivery draws is none of its session's unacknowledged deliveries.
#[tactic(auto, using(crate::proofs::InWindow::drawn_are_fresh))]
pub fn drawn_are_fresh()
    ensures { laws.DrawnAreFresh }
{}

/// At each moment there are at most 64 sessions.
#[tactic(auto, using(crate::proofs::InWindow::sessions_are_few))]
pub fn sessions_are_few()
    ensures { laws.SessionsAreFew }
{}

/// The packets of all replies are sound: they have a spelling.
#[tactic(auto, using(crate::proofs::Sound::replies_are_sound))]
pub fn replies_are_sound()
    ensures { laws.RepliesAreSound }
{}

/// At each moment a client has at most one session.
pub fn clients_differ()
    ensures { laws.ClientsDiffer }
{}
