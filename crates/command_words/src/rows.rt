//! The options of the commands, a row each: its name, what it is, and what its usage says.

/// What an option is.
#[derive(Clone, Copy, Debug, PartialEq, Eq)]
pub(crate) enum Kind {
    /// It has a value, and has to be given.
    Required,
    /// It has a value.
    Optional,
    /// It has no value.
    Flag,
}

/// An option of a command.
#[derive(Clone, Copy)]
pub(crate) struct Row<'a> {
    /// Without its dashes.
    pub(crate) name: &'a str,
    pub(crate) kind: Kind,
    /// What the usage calls its value. A flag has none.
    pub(crate) value: &'a str,
    /// What the usage says of it, with its range and its default.
    pub(crate) help: &'a str,
}

pub(crate) const BLOCK: Row<'static> = Row {
    name: "block",
    kind: Kind::Optional,
    value: "BYTES",
    help: "Bytes of a block, a power of two from 256 to 65536 [default: 4096]",
};

pub(crate) const CLIENT: Row<'static> = Row {
    name: "client",
    kind: Kind::Required,
    value: "CLIENT",
    help: "The client identifier, 1 to 128 printed ASCII characters without spaces",
};

pub(crate) const CONNECT: Row<'static> = Row {
    name: "connect",
    kind: Kind::Required,
    value: "ADDRESS",
    help: "The broker's address, 1 to 255 printed ASCII characters without spaces",
};

pub(crate) const CONNECTIONS: Row<'static> = Row {
    name: "connections",
    kind: Kind::Required,
    value: "COUNT",
    help: "How many callers are served, 1 to 1000000",
};

pub(crate) const DUMP: Row<'static> = Row {
    name: "dump",
    kind: Kind::Flag,
    value: "",
    help: "The image is written",
};

pub(crate) const EVENTS: Row<'static> = Row {
    name: "events",
    kind: Kind::Required,
    value: "COUNT",
    help: "How many events are played, 1 to 1000000",
};

/// The thing whose image is fetched.
pub(crate) const IMAGE: Row<'static> = Row {
    name: "thing",
    kind: Kind::Required,
    value: "THING",
    help: "Whose image is fetched, 1 to 128 ASCII letters, digits, ':', '_' and '-'",
};

pub(crate) const KEEP_ALIVE: Row<'static> = Row {
    name: "keep-alive",
    kind: Kind::Optional,
    value: "SECONDS",
    help: "0 to 65535, and 0 for none [default: 60]",
};

pub(crate) const LISTEN: Row<'static> = Row {
    name: "listen",
    kind: Kind::Required,
    value: "ADDRESS",
    help: "The own address, 1 to 255 printed ASCII characters without spaces",
};

pub(crate) const READERS: Row<'static> = Row {
    name: "readers",
    kind: Kind::Required,
    value: "COUNT",
    help: "How many readers there are, 1 to 8",
};

pub(crate) const READS: Row<'static> = Row {
    name: "reads",
    kind: Kind::Required,
    value: "COUNT",
    help: "How often each of them reads, 0 to 1000000",
};

pub(crate) const REOPEN: Row<'static> = Row {
    name: "reopen",
    kind: Kind::Optional,
    value: "COUNT",
    help: "How often a broken connection is opened again, 0 to 1000 [default: 5]",
};

pub(crate) const SEED: Row<'static> = Row {
    name: "seed",
    kind: Kind::Required,
    value: "SEED",
    help: "What the events are drawn from, 0 to 18446744073709551615",
};

pub(crate) const SIZE: Row<'static> = Row {
    name: "size",
    kind: Kind::Optional,
    value: "SIZE",
    help: "How large the agent's parts are, tiny or usual [default: usual]",
};

/// The thing whose shadow and jobs a script's lines speak of.
pub(crate) const THING: Row<'static> = Row {
    name: "thing",
    kind: Kind::Optional,
    value: "THING",
    help: "Whose shadow and jobs the script names, 1 to 128 ASCII letters, digits, ':', '_' and '-'",
};

pub(crate) const TICK: Row<'static> = Row {
    name: "tick",
    kind: Kind::Optional,
    value: "MILLISECONDS",
    help: "From one round to the next, 0 to 1000000 [default: 0]",
};

pub(crate) const TRIES: Row<'static> = Row {
    name: "tries",
    kind: Kind::Optional,
    value: "COUNT",
    help: "How often a request without an answer is made again, 0 to 100 [default: 5]",
};

pub(crate) const WIPE: Row<'static> = Row {
    name: "wipe",
    kind: Kind::Flag,
    value: "",
    help: "An old session is wiped first",
};
