//! Topics, documents and blocks of a device, and a service of its jobs, worked out by hand. They are tests of `thing_topics`,
//! `device_docs`, `stream_blocks` and `thing_service` through their public calls, and stand apart so that these aren't proved with them
//! once more.
#![tactic(auto)]

#[cfg(test)]
mod tests;
