//! What a service answers.

use list_types::{Blob, Seq, Text};

/// Messages, each a topic and a payload, in order.
pub type Answers = Seq<(Text, Blob)>;
