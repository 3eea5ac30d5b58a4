//! The packets of MQTT 3.1.1 and their bytes.
#![tactic(auto)]

mod decode;
mod fields;
mod flags;
mod front;
mod kind;
mod laws;
mod lists;
mod packet;
mod put;
mod qos;
mod refusal;
mod remaining;
mod sizes;
mod soundness;
mod spell;
mod splitter;
mod will;

pub use laws::{
    answers_are_determined, bytes_are_a_stream, bytes_spell_one_packet, connects_are_spelled,
    cuts_make_no_difference, messages_are_spelled, packets_have_one_spelling, rests_have_a_verdict,
    sizes_are_unique, sound_are_spelled, spelled_are_sound, spellings_begin_no_other,
    streams_are_unique, subscriptions_are_spelled, verdicts_are_these,
};
pub use list_types::{Blob, Copied, Seq, Text};
pub use packet::Packet;
pub use qos::Qos;
pub use soundness::PACKET_LIMIT;
pub use spell::{TooSmall, encode, spelled_len};
pub use splitter::{Next, Splitter};
pub use will::{Ask, Will};

/// Filters with the quality of service that is asked for each, as a list.
pub type Asks = Seq<Ask>;

/// Topic filters, as a list.
pub type Filters = Seq<Text>;

/// Return codes of a SUBACK, as a list.
pub type Codes = Seq<u8>;

/// Packets that are sent again, as a list.
pub type Resend = Seq<Packet>;

/// Want of memory.
pub type NoMemory = std::alloc::AllocError;
