//! A file for each crate whose calls are made.

mod blocks;
mod documents;
mod services;
mod topics;
