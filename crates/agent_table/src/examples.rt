//! Worked journals, each the contract of a function that does nothing.

ghost use Rattle.agent_table.specs.Worked as worked;
ghost use Rattle.agent_table.specs.WorkedRenewals as renewals;
ghost use Rattle.agent_table.specs.WorkedRoutes as routes;
ghost use Rattle.agent_table.specs.WorkedSessions as sessions;
ghost use Rattle.agent_table.specs.WorkedTimes as times;

/// The journal of one task that publishes once is legal, and so is that of a connection that the
/// broker refuses.
#[tactic(auto, using(crate::proofs::Worked::firsts_are_legal))]
pub fn first_examples()
    ensures { worked.FirstsAreLegal }
{}

/// Publishes over connections that end: what is sent again, and what isn't.
#[tactic(auto, using(crate::proofs::Worked::deliveries_are_legal))]
pub fn delivery_examples()
    ensures { worked.DeliveriesAreLegal }
{}

/// Messages that are passed, once.
#[tactic(auto, using(crate::proofs::Worked::messages_are_legal))]
pub fn message_examples()
    ensures { worked.MessagesAreLegal }
{}

/// Routes that outlive a lost session.
#[tactic(auto, using(crate::proofs::Worked::renewals_are_legal))]
pub fn renewal_examples()
    ensures { worked.RenewalsAreLegal }
{}

/// Runs that end by Terminate, and without an answer to a PINGREQ.
#[tactic(auto, using(crate::proofs::Worked::ends_are_legal))]
pub fn end_examples()
    ensures { worked.EndsAreLegal }
{}

/// A PINGREQ that is due, silence that breaks a connection, and what a break leaves of open commands.
#[tactic(auto, using(crate::proofs::WorkedTimes::times_are_legal))]
pub fn time_examples()
    ensures { times.TimesAreLegal }
{}

/// Sessions that are wiped, and one that the agent doesn't know.
#[tactic(auto, using(crate::proofs::WorkedSessions::sessions_are_legal))]
pub fn session_examples()
    ensures { sessions.SessionsAreLegal }
{}

/// Commands without room, the order in which they are sent again, and an identifier of another command.
#[tactic(auto, using(crate::proofs::WorkedSessions::rooms_are_legal))]
pub fn room_examples()
    ensures { sessions.RoomsAreLegal }
{}

/// Identifiers behind 65,535.
#[tactic(auto, using(crate::proofs::WorkedSessions::identifiers_wrap))]
pub fn identifier_examples()
    ensures { sessions.IdentifiersWrap }
{}

/// Two tasks with one filter.
#[tactic(auto, using(crate::proofs::WorkedRoutes::pairs_are_legal))]
pub fn pair_examples()
    ensures { routes.PairsAreLegal }
{}

/// Filters that are shared, and room for routes.
#[tactic(auto, using(crate::proofs::WorkedRoutes::shared_are_legal))]
pub fn shared_examples()
    ensures { routes.SharedAreLegal }
{}

/// Nine filters that are asked for again.
#[tactic(auto, using(crate::proofs::WorkedRenewals::many_are_renewed))]
pub fn many_examples()
    ensures { renewals.ManyAreRenewed }
{}

/// A granted quality of service that outlives its route.
#[tactic(auto, using(crate::proofs::WorkedRenewals::grants_outlive))]
pub fn grant_examples()
    ensures { renewals.GrantsOutlive }
{}
