//! Topic names, topic filters, and which names a filter fits (OASIS MQTT 3.1.1, section 4.7).
#![tactic(auto)]

mod fitting;
mod laws;
mod levels;
mod texts;

pub use fitting::matches;
pub use laws::{
    hash_fits_all, hash_fits_below, matcher_is_exact, names_are_filters, plain_fits_itself,
};
pub use texts::{is_filter, is_name};

#[cfg(test)]
mod tests;
