//! Why a document isn't read.

ghost use Rattle.std.specs.Prelude.{◌≡◌};

use crate::keys::Key;
use list_types::Text;
use std::alloc::{AllocError, AllocFailed};

/// Why a job document isn't read: the first cause that applies. All keys down to `files` are looked for, then the files
/// are counted, then the file's keys are looked for; then each value is judged, and the digest last.
#[derive(Clone, Copy, Debug, PartialEq, Eq)]
pub enum DocFault {
    /// It isn't the JSON text of an object (RFC 8259).
    NotJson,
    /// The key isn't there, or its value is of another kind.
    Missing { key: Key },
    /// The value of the key isn't one that is allowed.
    Range { key: Key },
    /// There isn't one file but so many.
    Files { count: usize },
    /// `sha256` isn't the Base64 of 32 bytes (RFC 4648, section 4).
    Digest,
    /// Memory ran out. The document may be right.
    NoMemory,
}

/// Why a change isn't read: the first cause that applies, in this order.
#[derive(Debug, Drop, PartialEq, Eq)]
pub enum ChangeFault {
    /// It isn't the JSON text of an object (RFC 8259).
    NotJson,
    /// The key isn't there, or its value is of another kind.
    Missing { key: Key },
    /// `desired` doesn't have 1 to 64 members but so many.
    Count { members: usize },
    /// The first member, in the order of their keys, that is neither text, whole number, truth value nor null.
    Value { key: Text },
    /// Memory ran out. The document may be right.
    NoMemory,
}

/// The text isn't that of an object, or memory ran out.
#[derive(Clone, Copy, Debug, PartialEq, Eq)]
pub(crate) enum Unread {
    NotJson,
    NoMemory,
}

/// The key isn't there, or its value is of another kind.
#[derive(Clone, Copy, Debug, PartialEq, Eq)]
pub(crate) struct Absent {
    pub(crate) key: Key,
}

impl From<Unread> for DocFault {
    ghost use Rattle.device_docs.specs.Answers.{unread_document};

    ghost from_gives = { λ unread fault. fault ≡ unread_document unread };

    fn from(unread: Unread) -> DocFault {
        match unread {
            Unread::NotJson => DocFault::NotJson,
            Unread::NoMemory => DocFault::NoMemory,
        }
    }
}

impl From<Absent> for DocFault {
    ghost use Rattle.device_docs.specs.declared.faults.DocFault.TheVariants.{Missing};

    ghost from_gives = { λ absent fault. fault ≡ Missing absent.key };

    fn from(absent: Absent) -> DocFault {
        DocFault::Missing { key: absent.key }
    }
}

impl From<AllocError> for DocFault {
    ghost use Rattle.device_docs.specs.declared.faults.DocFault.TheVariants.{NoMemory};

    ghost from_gives = { λ _ fault. fault ≡ NoMemory };

    fn from(_error: AllocError) -> DocFault {
        DocFault::NoMemory
    }
}

impl From<Unread> for ChangeFault {
    ghost use Rattle.device_docs.specs.Answers.{unread_change};

    ghost from_gives = { λ unread fault. fault ≡ unread_change unread };

    fn from(unread: Unread) -> ChangeFault {
        match unread {
            Unread::NotJson => ChangeFault::NotJson,
            Unread::NoMemory => ChangeFault::NoMemory,
        }
    }
}

impl From<Absent> for ChangeFault {
    ghost use Rattle.device_docs.specs.declared.faults.ChangeFault.TheVariants.{Missing};

    ghost from_gives = { λ absent fault. fault ≡ Missing absent.key };

    fn from(absent: Absent) -> ChangeFault {
        ChangeFault::Missing { key: absent.key }
    }
}

impl From<AllocError> for ChangeFault {
    ghost use Rattle.device_docs.specs.declared.faults.ChangeFault.TheVariants.{NoMemory};

    ghost from_gives = { λ _ fault. fault ≡ NoMemory };

    fn from(_error: AllocError) -> ChangeFault {
        ChangeFault::NoMemory
    }
}

impl<T: Drop> From<AllocFailed<T>> for ChangeFault {
    ghost use Rattle.device_docs.specs.declared.faults.ChangeFault.TheVariants.{NoMemory};

    ghost from_gives = { λ _ fault. fault ≡ NoMemory };

    fn from(_error: AllocFailed<T>) -> ChangeFault {
        ChangeFault::NoMemory
    }
}
