//! Which options each command has: a table a command, a row an option.

use crate::rows::{
    BLOCK, CLIENT, CONNECT, CONNECTIONS, DUMP, EVENTS, IMAGE, KEEP_ALIVE, LISTEN, READERS, READS,
    REOPEN, Row, SEED, SIZE, THING, TICK, TRIES, WIPE,
};

pub(crate) const REPLAY: [Row<'static>; 7] = [CLIENT, KEEP_ALIVE, REOPEN, TICK, SIZE, THING, WIPE];

pub(crate) const SHARE: [Row<'static>; 7] = [
    CONNECT, CLIENT, KEEP_ALIVE, REOPEN, SIZE, THING, WIPE,
];

pub(crate) const FETCH: [Row<'static>; 9] = [
    CONNECT, CLIENT, IMAGE, KEEP_ALIVE, REOPEN, WIPE, BLOCK, TRIES, DUMP,
];

pub(crate) const BROKER: [Row<'static>; 2] = [LISTEN, CONNECTIONS];

pub(crate) const WORLD: [Row<'static>; 2] = [SEED, EVENTS];

pub(crate) const MIRROR: [Row<'static>; 2] = [READERS, READS];
