//! The value of a JSON text, and the members of an object by key and kind.

ghost use Rattle.std.specs.Prelude.{◌≡◌};
ghost use Rattle.serde_json.specs.Find.{as_str, as_array, as_object};
ghost use Rattle.serde_json.specs.View.{view, items_view, members_view};
ghost use Rattle.device_docs.specs.Members.{object_of, natural_of, whole_of, at, document_of};
ghost use Rattle.device_docs.specs.Answers.{Reads, Has};

use crate::faults::{Absent, Unread};
use crate::keys::Key;
use serde_json::{Map, Value};
use std::alloc::Global;

/// The object that a text is. Arrays and objects that nest more than 127 deep are no JSON here.
pub(crate) fn document(alloc: Global, text: &[u8]) -> Result<Value, Unread>
    ensures { Reads view result (document_of text.now) }
{
    match Value::from_slice(alloc, text) {
        Ok(value) => {
            if value.is_object() {
                Ok(value)
            } else {
                Err(Unread::NotJson)
            }
        }
        Err(error) => {
            if error.is_memory() {
                Err(Unread::NoMemory)
            } else {
                Err(Unread::NotJson)
            }
        }
    }
}

pub(crate) fn object_at(object: &Value, key: Key) -> Result<&Value, Absent>
    ensures { Has (λ v. view v.now) key result (at object_of key (view object.now)) }
{
    match object.get(key.name()) {
        Some(value) => {
            if value.is_object() {
                Ok(value)
            } else {
                Err(Absent { key })
            }
        }
        None => Err(Absent { key }),
    }
}

pub(crate) fn text_at(object: &Value, key: Key) -> Result<&str, Absent>
    ensures { Has (λ s. s.now) key result (at as_str key (view object.now)) }
{
    object
        .get(key.name())
        .and_then(Value::as_str)
        .ok_or(Absent { key })
}

pub(crate) fn list_at(object: &Value, key: Key) -> Result<&Vec<Value>, Absent>
    ensures { Has (λ v. items_view v.now.items) key result (at as_array key (view object.now)) }
{
    object
        .get(key.name())
        .and_then(Value::as_array)
        .ok_or(Absent { key })
}

pub(crate) fn members_at(object: &Value, key: Key) -> Result<&Map<String, Value>, Absent>
    ensures { Has (λ m. members_view m.now.entries) key result (at as_object key (view object.now)) }
{
    object
        .get(key.name())
        .and_then(Value::as_object)
        .ok_or(Absent { key })
}

/// A whole number that isn't negative.
pub(crate) fn natural_at(object: &Value, key: Key) -> Result<u64, Absent>
    ensures { Has (λ n. n) key result (at natural_of key (view object.now)) }
{
    object
        .get(key.name())
        .and_then(Value::as_u64)
        .ok_or(Absent { key })
}

/// A whole number. `None` stands for a negative one.
pub(crate) fn whole_at(object: &Value, key: Key) -> Result<Option<u64>, Absent>
    ensures { Has (λ n. n) key result (at whole_of key (view object.now)) }
{
    match object.get(key.name()).and_then(Value::as_number) {
        Some(number) => {
            if number.is_f64() {
                Err(Absent { key })
            } else {
                Ok(number.as_u64())
            }
        }
        None => Err(Absent { key }),
    }
}
