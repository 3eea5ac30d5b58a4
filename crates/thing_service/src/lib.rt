//! A jobs service that a broker asks: which jobs a thing is to execute, and the blocks of their images.
#![tactic(auto)]

mod answers;
mod asking;
mod blocks;
mod faults;
mod generator;
mod images;
mod offers;
mod reading;
mod service;
mod texts;
mod topics;

pub use answers::Answers;
pub use faults::ServiceFault;
pub use offers::Offer;
pub use reading::read_service;
pub use service::Service;

/// Want of memory.
pub type NoMemory = std::alloc::AllocError;
