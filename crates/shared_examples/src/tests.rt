//! A file for each crate whose calls are made.

mod posts;
mod tasks;
