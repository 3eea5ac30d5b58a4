//! A file for each crate whose calls are made.

mod commands;
mod resumptions;
mod routes;
mod stages;
