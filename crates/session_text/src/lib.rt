//! The text of a saved session: what the sequential agent reads off its journal, as plain data and as bytes.
#![tactic(auto)]

mod command;
mod fault;
mod fields;
mod fitting;
mod items;
mod laws;
mod put;
mod reading;
mod session;
mod writing;

pub use command::put_command;
pub use fault::{RestoreFault, TooSmall};
pub use fitting::fits;
pub use laws::{read_are_texts, texts_are_read};
pub use reading::read;
pub use session::{Bounds, Command, Connections, Last, Route, Session, Stage};
pub use writing::{put_connections, put_last, put_left, put_number, put_route, put_taken};
