//! The broker's connection.

ghost use Rattle.std.specs.Prelude.{◌≡◌, ◌≤◌, ◌+◌, ◌++◌, length};
ghost use Rattle.std.specs.Vec.{vec_len, vec_capacity};
ghost use Rattle.broker_core.specs.declared.link.Link.TheVariants as links;
ghost use Rattle.broker_core.specs.Kept.{kept_by};

use crate::session::Session;
use std::mem;

/// Where the one connection stands.
#[derive(Debug, Drop)]
pub enum Link {
    /// There is none.
    Gone,
    /// It began, and no CONNECT came yet.
    Opened,
    /// A CONNECT was accepted. With `clean` the session ends with the connection (MQTT 3.1.1, section 3.1.2.4).
    Accepted { clean: bool, session: Session },
}

/// The connection ends. A session of clean session 0 joins those without a connection, for which there is room.
pub fn end(link: &mut Link, others: &mut Vec<Session>)
    requires { vec_len others.old + length (kept_by link.old) ≤ vec_capacity others.old }
    ensures link { link.new ≡ links.Gone }
    ensures others { others.new.items ≡ others.old.items ++ kept_by link.old }
    ensures room { vec_len others.new ≤ vec_capacity others.new }
{
    match mem::replace(link, Link::Gone) {
        Link::Gone => {}
        Link::Opened => {}
        Link::Accepted { clean, session } => {
            if !clean {
                others.push_reserved(session);
            }
        }
    }
}
