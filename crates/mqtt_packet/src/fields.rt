//! The fields of packets, read from the front of bytes (MQTT 3.1.1, section 1.5). A reader answers a
//! value and the bytes behind it.

ghost use Rattle.std.specs.Prelude.{◌≡◌, ◌<◌, ◌↔◌, length, Option, Some, None, if◌then◌else◌, IsUtf8, IfOk};
ghost use Rattle.std.specs.Option.{option_map};
ghost use Rattle.mqtt_packet.specs.Reading.{Gives, byte_at, number_at, data_at, string_at, identifier_at, qos_of, whole};
ghost use Rattle.mqtt_packet.specs.Spelling.{is_string};

use crate::qos::Qos;
use crate::refusal::Refusal;
use list_types::{Blob, Text};
use std::alloc::Global;

#[tactic(auto, unfolding(crate::specs::Reading::byte_at))]
pub(crate) fn byte_at(bytes: &[u8]) -> Result<(u8, &[u8]), Refusal>
    ensures value { Gives (λ x. (x.0, x.1.now)) result (byte_at bytes.now) }
    ensures shorter { IfOk result (λ x. length x.1.now < length bytes.now) }
{
    match bytes {
        [] => Err(Refusal::Bad),
        [byte, rest @ ..] => Ok((*byte, rest)),
    }
}

#[tactic(auto, unfolding(crate::specs::Reading::number_at))]
pub(crate) fn number_at(bytes: &[u8]) -> Result<(u16, &[u8]), Refusal>
    ensures value { Gives (λ x. (x.0, x.1.now)) result (number_at bytes.now) }
    ensures shorter { IfOk result (λ x. length x.1.now < length bytes.now) }
{
    let [high, low, rest @ ..] = bytes else {
        return Err(Refusal::Bad);
    };
    Ok((u16::from_be_bytes([*high, *low]), rest))
}

/// Bytes behind their length.
#[tactic(auto, unfolding(crate::specs::Reading::data_at))]
fn data_at(bytes: &[u8]) -> Result<(&[u8], &[u8]), Refusal>
    ensures value { Gives (λ x. (x.0.now, x.1.now)) result (data_at bytes.now) }
    ensures short { IfOk result (λ x. length x.0.now < 65536) }
    ensures shorter { IfOk result (λ x. length x.1.now < length bytes.now) }
{
    let (len, rest) = number_at(bytes)?;
    rest.split_at_checked(len as usize).ok_or(Refusal::Bad)
}

/// Binary data (section 3.1.3.3).
pub(crate) fn blob_at(alloc: Global, bytes: &[u8]) -> Result<(Blob, &[u8]), Refusal>
    ensures { Gives (λ x. (x.0, x.1.now)) result (data_at bytes.now) }
{
    let (content, rest) = data_at(bytes)?;
    Ok((Blob::from_vec(Vec::from_slice(alloc, content)?), rest))
}

/// A string (section 1.5.3).
#[tactic(auto, unfolding(crate::specs::Reading::string_at))]
pub(crate) fn text_at(alloc: Global, bytes: &[u8]) -> Result<(Text, &[u8]), Refusal>
    ensures value { Gives (λ x. (x.0, x.1.now)) result (string_at bytes.now) }
    ensures shorter { IfOk result (λ x. length x.1.now < length bytes.now) }
{
    let (content, rest) = data_at(bytes)?;
    match text_of(content) {
        Some(text) => Ok((Text::from_str(alloc, text)?, rest)),
        None => Err(Refusal::Bad),
    }
}

/// The text of bytes that are UTF-8 without U+0000.
#[tactic(auto, using(crate::proofs::Strings::in_utf8, crate::proofs::Strings::not_utf8))]
fn text_of(bytes: &[u8]) -> Option<&str>
    requires { length bytes.now < 65536 }
    ensures { option_map (λ text. text.now) result ≡ (if is_string bytes.now then Some bytes.now else None) }
{
    if bytes.contains(&0) {
        return None;
    }
    match str::from_utf8(bytes) {
        Ok(text) => Some(text),
        Err(_) => None,
    }
}

/// A packet identifier, which isn't 0 (section 2.3.1).
#[tactic(auto, unfolding(crate::specs::Reading::identifier_at))]
pub(crate) fn identifier_at(bytes: &[u8]) -> Result<(u16, &[u8]), Refusal>
    ensures { Gives (λ x. (x.0, x.1.now)) result (identifier_at bytes.now) }
{
    let (id, rest) = number_at(bytes)?;
    if id == 0 {
        return Err(Refusal::Bad);
    }
    Ok((id, rest))
}

/// Two bits as a quality of service, which is never 3.
#[tactic(auto, unfolding(crate::specs::Reading::qos_of))]
pub(crate) fn qos_of(level: u8) -> Option<Qos>
    ensures { result ≡ qos_of level }
{
    match level {
        0 => Some(Qos::AtMostOnce),
        1 => Some(Qos::AtLeastOnce),
        2 => Some(Qos::ExactlyOnce),
        _ => None,
    }
}

/// A value behind which nothing stands.
pub(crate) fn whole<T: Drop>(value: T, rest: &[u8]) -> Result<T, Refusal>
    ensures { Gives (λ x. x) result (whole value rest.now) }
{
    match rest {
        [] => Ok(value),
        [_, ..] => Err(Refusal::Bad),
    }
}
