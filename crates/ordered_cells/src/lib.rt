//! Items in cells of a fixed number, in the order in which they came, found by small numbers as keys.
#![tactic(auto)]

mod keyed;
mod ordered;
mod slots;
mod words;

pub use keyed::{Keyed, KeyedCells};
pub use ordered::OrderedCells;

#[cfg(test)]
mod tests;
