//! Each step of a history with its effects, and where a history must end.

mod clocks;
mod connections;
mod histories;
mod identifiers;
mod long_runs;
mod messages;
mod publishes;
mod routes;
mod subscribes;
mod tasks;
mod texts;
