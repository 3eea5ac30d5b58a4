//! The text of a topic, kept in place.

use arrayvec::ArrayString;

/// A topic as it is written. The longest, of a stream, has 291 bytes.
pub type TopicText = ArrayString<320>;
