//! The agent's ends of its tasks' mailboxes: what the journal says for a task is put, in order, with marks that say how long the
//! journal was.
#![tactic(auto)]

mod kind;
mod laws;
mod made;
mod place;
mod post;
mod posts;
mod shown;
mod unmarked;

pub use kind::Kind;
pub use laws::{growth_is_posted, nothing_is_posted, posted_are_notes};
pub use place::Place;
pub use post::Post;
pub use posts::{Posted, Posts};
pub use shown::Shown;
