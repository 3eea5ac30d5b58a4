//! The map that a message is (RFC 8949, sections 3.1 and 3.2.2): its members one after another.

ghost use Rattle.std.specs.Prelude.{◌≡◌, ◌<◌, ◌≤◌, ◌+◌, length, IfSome, IfOk};
ghost use Rattle.stream_blocks.specs.Reading.{Reads, Gives, value_end, behind_key, member_at, map_at, map_end, one_less, members_in, map_of, found_in, nothing, or_bad, rest_of, head_at};

use crate::fault::{CborFault, Stop};
use crate::fields::Fields;
use crate::heads::head_at;
use crate::keys::{Form, Key, wanted};
use crate::strings::{break_at, piece_at, string_end};

/// What a message of this form says, if each of its items is right.
pub(crate) fn found_in(form: Form, message: &[u8]) -> Result<Fields, CborFault>
    ensures { Gives (λ fields. fields) result (found_in form message.now) }
{
    match map_of(form, message) {
        Ok(fields) => Ok(fields),
        Err(stop) => Err(stop.in_message(message.len())),
    }
}

#[tactic(auto, unfolding(crate::specs::Reading::map_of))]
fn map_of(form: Form, bytes: &[u8]) -> Result<Fields, Stop>
    ensures { Gives (λ fields. fields) result (map_of form bytes.now) }
{
    let Some((left, members)) = map_at(bytes) else {
        return Err(Stop::Bad { left: bytes.len() });
    };
    let (fields, rest) = members_of(form, left, members)?;
    if rest.is_empty() {
        Ok(fields)
    } else {
        Err(Stop::Bad { left: rest.len() })
    }
}

/// A map's head: how many members there are, or none where a break ends them.
#[tactic(auto, unfolding(crate::specs::Reading::map_at))]
fn map_at(bytes: &[u8]) -> Option<(Option<u64>, &[u8])>
    ensures value { Reads (λ x. (x.0, x.1.now)) result (map_at bytes.now) }
    ensures shorter { IfSome result (λ x. length x.1.now < length bytes.now) }
{
    match bytes {
        [0xbf, rest @ ..] => Some((None, rest)),
        _ => {
            let (len, rest) = head_at(5, bytes)?;
            Some((Some(len), rest))
        }
    }
}

/// The members, and the bytes behind the map.
fn members_of(form: Form, left: Option<u64>, bytes: &[u8]) -> Result<(Fields, &[u8]), Stop>
    ensures { Gives (λ x. (x.0, x.1.now)) result (members_in form (length bytes.now + 1) left nothing bytes.now) }
{
    let mut rest = bytes;
    let mut left = left;
    let mut fields = Fields::new();
    'members: loop {
        if let Some(behind) = map_end(left, rest) {
            return Ok((fields, behind));
        }
        let (more, behind) = member_at(form, fields, rest)?;
        fields = more;
        rest = behind;
        left = one_less(left);
    }
}

/// The bytes behind the map, where it ends here.
#[tactic(auto, unfolding(crate::specs::Reading::map_end))]
fn map_end(left: Option<u64>, bytes: &[u8]) -> Option<&[u8]>
    ensures { Reads (λ rest. rest.now) result (map_end left bytes.now) }
{
    match left {
        Some(0) => Some(bytes),
        Some(_) => None,
        None => break_at(bytes),
    }
}

fn one_less(left: Option<u64>) -> Option<u64>
    ensures { result ≡ one_less left }
{
    match left {
        Some(left) => Some(left.saturating_sub(1)),
        None => None,
    }
}

/// A key and its value.
#[tactic(auto, unfolding(crate::specs::Reading::member_at))]
fn member_at(form: Form, fields: Fields, bytes: &[u8]) -> Result<(Fields, &[u8]), Stop>
    ensures value { Gives (λ x. (x.0, x.1.now)) result (member_at form fields bytes.now) }
    ensures shorter { IfOk result (λ x. length x.1.now < length bytes.now) }
{
    let Some((key, rest)) = piece_at(3, bytes) else {
        return Err(Stop::Bad { left: bytes.len() });
    };
    behind_key(wanted(form, key), fields, rest)
}

/// A wanted key stands once, and has a value of its kind; another key's value is passed over.
fn behind_key(key: Option<Key>, fields: Fields, bytes: &[u8]) -> Result<(Fields, &[u8]), Stop>
    ensures value { Gives (λ x. (x.0, x.1.now)) result (behind_key key fields bytes.now) }
    ensures shorter { IfOk result (λ x. length x.1.now < length bytes.now) }
{
    match key {
        Some(key) => {
            if fields.has(key) {
                return Err(Stop::Twice { key: key.letter() });
            }
            fields.with_value(key, bytes)
        }
        None => Ok((fields, value_end(bytes)?)),
    }
}

/// The bytes behind a value that isn't wanted.
#[tactic(auto, unfolding(crate::specs::Reading::value_end))]
fn value_end(bytes: &[u8]) -> Result<&[u8], Stop>
    ensures value { Gives (λ rest. rest.now) result (value_end bytes.now) }
    ensures shorter { IfOk result (λ rest. length rest.now < length bytes.now) }
{
    match bytes {
        [] => Err(Stop::Bad { left: 0 }),
        [0..=31, ..] => number_end(0, bytes),
        [32..=63, ..] => number_end(1, bytes),
        [64..=95, ..] => string_end(2, bytes),
        [96..=127, ..] => string_end(3, bytes),
        [244..=246, rest @ ..] => Ok(rest),
        [_, ..] => Err(Stop::Bad { left: bytes.len() }),
    }
}

fn number_end(major: u8, bytes: &[u8]) -> Result<&[u8], Stop>
    ensures value { Gives (λ rest. rest.now) result (or_bad bytes.now (rest_of (head_at major bytes.now))) }
    ensures shorter { IfOk result (λ rest. length rest.now < length bytes.now) }
{
    match head_at(major, bytes) {
        Some((_, rest)) => Ok(rest),
        None => Err(Stop::Bad { left: bytes.len() }),
    }
}
