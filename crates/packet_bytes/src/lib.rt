//! Packets and their bytes, worked out by hand from the standard. They are tests of `mqtt_packet` through its public calls, and stand
//! apart so that it isn't proved with them once more.
#![tactic(auto)]

#[cfg(test)]
mod tests;
