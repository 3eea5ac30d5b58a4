//! Blocks of a file over MQTT: data messages and requests in CBOR (RFC 8949), and which blocks are missing.
#![tactic(auto)]

mod block;
mod fault;
mod fields;
mod heads;
mod keys;
mod laws;
mod map;
mod missing;
mod put;
mod request;
mod strings;
mod words;

pub use block::{Head, read_block, write_block};
pub use fault::{CborFault, TooSmall};
pub use laws::{
    blocks_are_read, blocks_are_read_back, heads_are_read, requests_are_read,
    requests_are_read_back, strings_are_read, values_are_read,
};
pub use missing::Missing;
pub use request::{AskBlocks, read_request, write_request};

/// Want of memory.
pub type NoMemory = std::alloc::AllocError;
