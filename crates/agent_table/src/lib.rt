//! The table of the sequential agent: what it does at each cause, and which journals are its histories.
#![tactic(auto)]

mod examples;
mod laws;
mod offs;

pub use examples::{
    delivery_examples, end_examples, first_examples, grant_examples, identifier_examples,
    many_examples, message_examples, pair_examples, renewal_examples, room_examples,
    session_examples, shared_examples, time_examples,
};
pub use laws::{
    awaited_stay_unpublished, closed_is_off, closed_unasked_is_a_fault, commands_complete_once,
    commands_draw_fresh, each_is_open_or_done, ends_with_none_open, first_has_no_session,
    first_is_unanswered, fresh_is_first_unused, fresh_is_fresh, good_are_earned, granted_are_few,
    held_are_unreleased, identifiers_are_few, no_released_is_published, none_is_early,
    none_is_unanswered, off_has_closed, open_were_taken, outcomes_are_earned, packets_are_sound,
    received_are_released, released_are_in_order, released_were_received, unanswered_is_first,
    unreleased_are_held,
};
pub use offs::{
    breaks_are_few, none_is_open_in_off, off_is_told, only_opened_connects, only_tasks_take,
    terminated_is_told,
};
