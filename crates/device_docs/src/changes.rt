//! Changes of a shadow.

ghost use Rattle.std.specs.Prelude.{◌≡◌, Some, IfOk};
ghost use Rattle.std.specs.Option.{option_map};
ghost use Rattle.serde_json.specs.View.{view, members_view};
ghost use Rattle.device_docs.specs.declared.faults.ChangeFault.TheVariants as f;
ghost use Rattle.device_docs.specs.Changes as changes;
ghost use Rattle.device_docs.specs.Changes.{Tells};

use crate::faults::ChangeFault;
use crate::keys::Key;
use crate::members::{document, members_at, natural_at, object_at};
use list_types::{Seq, Text};
use serde_json::{Map, Value};
use std::alloc::Global;

/// The value of a key.
#[derive(Debug, Drop, PartialEq, Eq)]
pub enum Scalar {
    Word(Text),
    Int(i64),
    Flag(bool),
}

/// Keys with their new values, or `None` where the key is removed.
pub type Sets = Seq<(Text, Option<Scalar>)>;

/// A change of a shadow.
#[derive(Debug, Drop, PartialEq, Eq)]
pub struct Change {
    pub version: u64,
    /// In the order of the keys' bytes, each key once.
    pub sets: Sets,
}

/// Reads a change: `version` and `state`, an object with `desired`, an object of 1 to 64 members. Other keys are passed
/// over; of several members of one key the last counts.
///
/// # Errors
/// The first [`ChangeFault`] that applies. Arrays and objects that nest more than 127 deep are `NotJson`.
pub fn read_change(alloc: Global, text: &[u8]) -> Result<Change, ChangeFault>
    ensures tells { Tells (changes.fault_in text.now) (changes.change_in text.now) result }
    ensures order { IfOk result (λ change. changes.IsInOrder change.sets) }
{
    let document = document(alloc, text)?;
    change_of(alloc, &document)
}

fn change_of(alloc: Global, document: &Value) -> Result<Change, ChangeFault>
    ensures tells { Tells (changes.first_fault (view document.now)) (changes.change_of (view document.now)) result }
    ensures order { IfOk result (λ change. changes.IsInOrder change.sets) }
{
    let version = natural_at(document, Key::Version)?;
    let state = object_at(document, Key::State)?;
    let desired = members_at(state, Key::Desired)?;
    let members = desired.len();
    if !is_counted(members) {
        return Err(ChangeFault::Count { members });
    }
    let sets = sets_of(alloc, desired)?;
    Ok(Change { version, sets })
}

/// Whether a change may have so many members.
fn is_counted(members: usize) -> bool
    ensures { result ≡ changes.is_counted members }
{
    1 <= members && members <= 64
}

fn sets_of(alloc: Global, members: &Map<String, Value>) -> Result<Sets, ChangeFault>
    ensures tells { Tells (option_map f.Value (changes.first_bad (members_view members.now.entries)))
        (Some (changes.sets_of (members_view members.now.entries))) result }
    ensures order { IfOk result (λ sets. changes.IsInOrder sets) }
{
    let mut sets = Vec::with_capacity(alloc, members.len())?;
    'members: for (key, value) in members.iter() {
        let scalar = scalar_of(alloc, key.as_str(), value)?;
        sets.push((Text::from_str(alloc, key.as_str())?, scalar))?;
    }
    Ok(Sets::from_vec(sets))
}

/// What a key is set to, or none where it is removed.
fn scalar_of(alloc: Global, key: &str, value: &Value) -> Result<Option<Scalar>, ChangeFault>
    ensures { Tells (changes.bad_value key.now (view value.now)) (changes.scalar_of (view value.now)) result }
{
    match value {
        Value::Null => Ok(None),
        Value::Bool(flag) => Ok(Some(Scalar::Flag(*flag))),
        Value::Number(number) => match number.as_i64() {
            Some(n) => Ok(Some(Scalar::Int(n))),
            None => Err(bad_value(alloc, key)),
        },
        Value::String(word) => Ok(Some(Scalar::Word(Text::from_str(alloc, word.as_str())?))),
        Value::Array(_) => Err(bad_value(alloc, key)),
        Value::Object(_) => Err(bad_value(alloc, key)),
    }
}

fn bad_value(alloc: Global, key: &str) -> ChangeFault
    ensures { changes.IsBadValue key.now result }
{
    match Text::from_str(alloc, key) {
        Ok(key) => ChangeFault::Value { key },
        Err(_) => ChangeFault::NoMemory,
    }
}
