//! Why a topic isn't written, and why a text has no reading.

/// The first part that a topic can't be written with: one that isn't of its class, is missing, or
/// stands where the kind has none.
#[derive(Clone, Copy, Debug, PartialEq, Eq)]
pub enum NameFault {
    /// The thing.
    Thing,
    /// The shadow's name.
    Name,
    /// The job.
    Job,
    /// The stream.
    Stream,
}

/// Why a text is no topic of a service: the first cause, as the reader goes through the text.
#[derive(Clone, Copy, Debug, PartialEq, Eq)]
pub enum TopicFault {
    /// It doesn't begin with `$aws/things/`.
    Root,
    /// The level behind that isn't a thing.
    Thing,
    /// A shadow's name, a job or a stream stands in its place and isn't of its class.
    Part,
    /// The service's word doesn't follow the thing, or what is left is of no kind.
    Kind,
}
