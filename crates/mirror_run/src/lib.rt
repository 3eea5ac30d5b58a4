//! The command `mirror`: readers on their own threads read a shadow's document while its changes are published.
#![tactic(auto)]

mod call;
mod command;
mod printing;
mod running;
mod steps;

pub use call::mirror_call;
pub use command::mirror_command;
pub use steps::{MirrorStep, MirrorSteps, StepsFault, read_steps};

#[cfg(test)]
mod tests;
