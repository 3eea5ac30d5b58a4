//! Laws of the definitions, each the contract of a function that does nothing.

ghost use Rattle.agent_table.specs.Closings as closings;
ghost use Rattle.agent_table.specs.Laws as laws;
ghost use Rattle.agent_table.specs.Meanings as meanings;

/// At each moment of a legal journal each command that was taken is open or completed, once.
#[tactic(auto, using(crate::proofs::Once::each_is_open_or_done))]
pub fn each_is_open_or_done()
    ensures { laws.EachIsOpenOrDone }
{}

/// No command is completed before it was taken.
#[tactic(auto, using(crate::proofs::Once::none_is_early))]
pub fn none_is_early()
    ensures { laws.NoneIsEarly }
{}

/// An agent that has ended has nothing open.
#[tactic(auto, using(crate::proofs::Ended::ends_with_none_open))]
pub fn ends_with_none_open()
    ensures { laws.EndsWithNoneOpen }
{}

/// A legal journal that has gone through to its end completes each command exactly once, and none
/// before it was taken.
#[tactic(auto, using(crate::proofs::Ended::commands_complete_once))]
pub fn commands_complete_once()
    ensures { laws.CommandsCompleteOnce }
{}

/// As the table reads it, a command is only done where the broker has acknowledged it, or needn't.
pub fn outcomes_are_earned()
    ensures { laws.OutcomesAreEarned }
{}

/// A publish is only released behind a PUBREC of its identifier that arrived behind its own Take, while it was open, where
/// there are more identifiers than room for commands and routes.
#[tactic(auto, using(crate::proofs::Received::released_were_received))]
pub fn released_were_received()
    ensures { laws.ReleasedWereReceived }
{}

/// A fresh identifier is none of those in use, which are fewer than there are identifiers; and it is one
/// of 1 to 65,535 (MQTT 3.1.1, section 2.3.1).
#[tactic(auto, using(crate::proofs::Fresh::fresh_is_fresh))]
pub fn fresh_is_fresh()
    ensures { laws.FreshIsFresh }
{}

/// In a legal journal each packet, sent or arrived, has a spelling, where the client identifier is one.
#[tactic(auto, using(crate::proofs::SoundPasts::packets_are_sound))]
pub fn packets_are_sound()
    ensures { laws.PacketsAreSound }
{}

/// No more identifiers are in use at once than there is room for open commands and for routes.
#[tactic(auto, using(crate::proofs::FewUsed::identifiers_are_few))]
pub fn identifiers_are_few()
    ensures { laws.IdentifiersAreFew }
{}

/// No entry sends a PUBLISH of an identifier that is released then, where there are more identifiers than
/// room for commands and routes.
#[tactic(auto, using(crate::proofs::Awaiting::no_released_is_published))]
pub fn no_released_is_published()
    ensures { laws.NoReleasedIsPublished }
{}

/// From a PUBREL on, until its PUBCOMP arrives or a CONNACK that has no session present, no PUBLISH of that
/// identifier is sent (MQTT 3.1.1, section 4.3.3), where there are more identifiers than room for commands
/// and routes.
#[tactic(auto, using(crate::proofs::Awaiting::awaited_stay_unpublished))]
pub fn awaited_stay_unpublished()
    ensures { laws.AwaitedStayUnpublished }
{}

/// A command is only done where the broker has acknowledged this very command, or needn't: at QoS 1 by a PUBACK of its
/// identifier, at QoS 2 by a PUBCOMP behind a PUBREC that arrived behind the command's own Take, an unsubscribe by an
/// UNSUBACK; and a subscribe is granted the codes of its SUBACK, one for each filter.
#[tactic(auto, using(crate::proofs::Received::good_are_earned))]
pub fn good_are_earned()
    ensures { laws.GoodAreEarned }
{}

/// A command that is open was taken, and its Take sent its packet with its identifier.
#[tactic(auto, using(crate::proofs::Received::open_were_taken))]
pub fn open_were_taken()
    ensures { laws.OpenWereTaken }
{}

/// An agent that has ended has closed each task that hasn't left.
#[tactic(auto, using(crate::proofs::Closed::off_has_closed))]
pub fn off_has_closed()
    ensures { closings.OffHasClosed }
{}

/// A task is closed only by an agent that has ended.
#[tactic(auto, using(crate::proofs::Closed::closed_is_off))]
pub fn closed_is_off()
    ensures { closings.ClosedIsOff }
{}

/// Where a task was closed, and neither a Disconnect nor a Terminate was taken, the agent didn't end as Done.
#[tactic(auto, using(crate::proofs::Closed::closed_unasked_is_a_fault))]
pub fn closed_unasked_is_a_fault()
    ensures { closings.ClosedUnaskedIsAFault }
{}

/// A subscribe is granted at most eight codes.
#[tactic(auto, using(crate::proofs::Closed::granted_are_few))]
pub fn granted_are_few()
    ensures { closings.GrantedAreFew }
{}

/// A held identifier is one whose QoS 2 PUBLISH was answered with PUBREC, and behind that stands neither a PUBREL of it nor a
/// loss of the session (MQTT 3.1.1, section 4.3.3).
#[tactic(auto, using(crate::proofs::Holding::held_are_unreleased))]
pub fn held_are_unreleased()
    ensures { meanings.HeldAreUnreleased }
{}

/// Each such identifier is held.
#[tactic(auto, using(crate::proofs::Holding::unreleased_are_held))]
pub fn unreleased_are_held()
    ensures { meanings.UnreleasedAreHeld }
{}

/// The unanswered PINGREQ is the first one behind the last opening or PINGRESP (MQTT 3.1.1, section 3.12).
#[tactic(auto, using(crate::proofs::Pinging::unanswered_is_first))]
pub fn unanswered_is_first()
    ensures { meanings.UnansweredIsFirst }
{}

/// The first PINGREQ behind the last opening or PINGRESP is unanswered.
pub fn first_is_unanswered()
    ensures { meanings.FirstIsUnanswered }
{}

/// Where no PINGREQ was sent since the last opening or PINGRESP, none is unanswered.
#[tactic(auto, using(crate::proofs::Pinging::none_is_unanswered))]
pub fn none_is_unanswered()
    ensures { meanings.NoneIsUnanswered }
{}

/// The fresh identifier is the first, cyclically in 1 to 65,535 behind the last one drawn, that isn't in use: each between is
/// (MQTT 3.1.1, section 2.3.1).
#[tactic(auto, using(crate::proofs::FirstUnused::fresh_is_first_unused))]
pub fn fresh_is_first_unused()
    ensures { meanings.FreshIsFirstUnused }
{}

/// An open QoS 2 publish is released from its own PUBREC on.
pub fn received_are_released()
    ensures { meanings.ReceivedAreReleased }
{}

/// The released publishes stand in the order of their first PUBRECs.
#[tactic(auto, using(crate::proofs::Ordered::released_are_in_order))]
pub fn released_are_in_order()
    ensures { meanings.ReleasedAreInOrder }
{}

/// A connection is the first one as long as no CONNACK was accepted on one with clean session 0 (MQTT 3.1.1, section 3.2.2.2).
#[tactic(auto, using(crate::proofs::Sessions::first_has_no_session))]
pub fn first_has_no_session()
    ensures { meanings.FirstHasNoSession }
{}

/// Each command that a Take opens has the fresh identifier.
pub fn commands_draw_fresh()
    ensures { meanings.CommandsDrawFresh }
{}
