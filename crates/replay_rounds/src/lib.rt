//! Replays, defined: a script and the tape of a broker give the journal, round by round.
#![tactic(auto)]

mod laws;

pub use laws::{
    replays_are_histories, replays_are_legal, replays_end, replays_hear_their_tape,
    replays_take_all,
};
