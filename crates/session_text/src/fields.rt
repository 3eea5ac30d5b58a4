//! The fields of a saved session, read from the front of bytes. A reader answers a value and the bytes behind it.

ghost use Rattle.std.specs.Prelude.{◌≡◌, ◌<◌, length, Some, None, if◌then◌else◌, IfOk};
ghost use Rattle.std.specs.Int.{w32, w64};
ghost use Rattle.std.specs.Option.{option_map};
ghost use Rattle.mqtt_packet.specs.Reading.{byte_at, number_at, data_at, string_at, qos_of, whole};
ghost use Rattle.mqtt_packet.specs.Spelling.{is_string};
ghost use Rattle.session_text.specs.Reading.{Gives, wide_at, flag_of, flag_at, phase_in, phase_at, off_in, off_at, stage_in, stage_at, qos_at, filter_at};

use crate::fault::RestoreFault;
use crate::session::Stage;
use agent_journal::{OffBy, Phase};
use list_types::Text;
use mqtt_packet::Qos;
use std::alloc::Global;
use topic_filter::is_filter;

#[tactic(auto, unfolding(mqtt_packet::specs::Reading::byte_at))]
pub(crate) fn byte_at(bytes: &[u8]) -> Result<(u8, &[u8]), RestoreFault>
    ensures { Gives (λ x. (x.0, x.1.now)) result (byte_at bytes.now) }
{
    match bytes {
        [] => Err(RestoreFault::Bad),
        [byte, rest @ ..] => Ok((*byte, rest)),
    }
}

#[tactic(auto, unfolding(mqtt_packet::specs::Reading::number_at))]
pub(crate) fn u16_at(bytes: &[u8]) -> Result<(u16, &[u8]), RestoreFault>
    ensures { Gives (λ x. (x.0, x.1.now)) result (number_at bytes.now) }
{
    let [high, low, rest @ ..] = bytes else {
        return Err(RestoreFault::Bad);
    };
    Ok((u16::from_be_bytes([*high, *low]), rest))
}

#[tactic(auto, unfolding(crate::specs::Reading::wide_at))]
pub(crate) fn u32_at(bytes: &[u8]) -> Result<(u32, &[u8]), RestoreFault>
    ensures { Gives (λ x. (x.0, x.1.now)) result (wide_at w32 bytes.now) }
{
    if bytes.len() < 4 {
        return Err(RestoreFault::Bad);
    }
    let (front, rest) = bytes.split_at(4);
    let number = u32::from_be_bytes([front[0], front[1], front[2], front[3]]);
    Ok((number, rest))
}

#[tactic(auto, unfolding(crate::specs::Reading::wide_at))]
pub(crate) fn u64_at(bytes: &[u8]) -> Result<(u64, &[u8]), RestoreFault>
    ensures { Gives (λ x. (x.0, x.1.now)) result (wide_at w64 bytes.now) }
{
    if bytes.len() < 8 {
        return Err(RestoreFault::Bad);
    }
    let (front, rest) = bytes.split_at(8);
    let number = u64::from_be_bytes([
        front[0], front[1], front[2], front[3], front[4], front[5], front[6], front[7],
    ]);
    Ok((number, rest))
}

#[tactic(auto, unfolding(crate::specs::Reading::flag_at))]
pub(crate) fn flag_at(bytes: &[u8]) -> Result<(bool, &[u8]), RestoreFault>
    ensures { Gives (λ x. (x.0, x.1.now)) result (flag_at bytes.now) }
{
    let (byte, rest) = byte_at(bytes)?;
    let flag = flag_of(byte).ok_or(RestoreFault::Bad)?;
    Ok((flag, rest))
}

fn flag_of(byte: u8) -> Option<bool>
    ensures { result ≡ flag_of byte }
{
    match byte {
        0 => Some(false),
        1 => Some(true),
        _ => None,
    }
}

#[tactic(auto, unfolding(crate::specs::Reading::phase_at))]
pub(crate) fn phase_at(bytes: &[u8]) -> Result<(Phase, &[u8]), RestoreFault>
    ensures { Gives (λ x. (x.0, x.1.now)) result (phase_at bytes.now) }
{
    let (byte, rest) = byte_at(bytes)?;
    let phase = phase_in(byte).ok_or(RestoreFault::Bad)?;
    Ok((phase, rest))
}

fn phase_in(byte: u8) -> Option<Phase>
    ensures { result ≡ phase_in byte }
{
    match byte {
        0 => Some(Phase::Down),
        1 => Some(Phase::Opening),
        2 => Some(Phase::Up),
        3 => Some(Phase::Spilled),
        4 => Some(Phase::Off),
        _ => None,
    }
}

/// How the agent came to Off: its number, and the code of a refusal.
#[tactic(auto, unfolding(crate::specs::Reading::off_at))]
pub(crate) fn off_at(bytes: &[u8]) -> Result<(Option<OffBy>, &[u8]), RestoreFault>
    ensures { Gives (λ x. (x.0, x.1.now)) result (off_at bytes.now) }
{
    let (number, rest) = byte_at(bytes)?;
    let (code, rest) = byte_at(rest)?;
    let off = off_in(number, code).ok_or(RestoreFault::Bad)?;
    Ok((off, rest))
}

fn off_in(number: u8, code: u8) -> Option<Option<OffBy>>
    ensures { result ≡ off_in number code }
{
    if number == 5 {
        return if 1 <= code && code <= 5 {
            Some(Some(OffBy::Refused { code }))
        } else {
            None
        };
    }
    if code != 0 {
        return None;
    }
    match number {
        0 => Some(None),
        1 => Some(Some(OffBy::Finish)),
        2 => Some(Some(OffBy::Disconnect)),
        3 => Some(Some(OffBy::Terminate)),
        4 => Some(Some(OffBy::GaveUp)),
        6 => Some(Some(OffBy::Bytes)),
        7 => Some(Some(OffBy::Wrong)),
        8 => Some(Some(OffBy::Held)),
        _ => None,
    }
}

#[tactic(auto, unfolding(crate::specs::Reading::stage_at))]
pub(crate) fn stage_at(bytes: &[u8]) -> Result<(Stage, &[u8]), RestoreFault>
    ensures { Gives (λ x. (x.0, x.1.now)) result (stage_at bytes.now) }
{
    let (byte, rest) = byte_at(bytes)?;
    let stage = stage_in(byte).ok_or(RestoreFault::Bad)?;
    Ok((stage, rest))
}

fn stage_in(byte: u8) -> Option<Stage>
    ensures { result ≡ stage_in byte }
{
    match byte {
        0 => Some(Stage::NoPublish),
        1 => Some(Stage::Sent),
        2 => Some(Stage::Released),
        _ => None,
    }
}

#[tactic(auto, unfolding(crate::specs::Reading::qos_at))]
pub(crate) fn qos_at(bytes: &[u8]) -> Result<(Qos, &[u8]), RestoreFault>
    ensures { Gives (λ x. (x.0, x.1.now)) result (qos_at bytes.now) }
{
    let (byte, rest) = byte_at(bytes)?;
    let qos = qos_of(byte).ok_or(RestoreFault::Bad)?;
    Ok((qos, rest))
}

#[tactic(auto, unfolding(mqtt_packet::specs::Reading::qos_of))]
fn qos_of(level: u8) -> Option<Qos>
    ensures { result ≡ qos_of level }
{
    match level {
        0 => Some(Qos::AtMostOnce),
        1 => Some(Qos::AtLeastOnce),
        2 => Some(Qos::ExactlyOnce),
        _ => None,
    }
}

/// Bytes behind their length of two bytes.
#[tactic(auto, unfolding(mqtt_packet::specs::Reading::data_at))]
fn data_at(bytes: &[u8]) -> Result<(&[u8], &[u8]), RestoreFault>
    ensures value { Gives (λ x. (x.0.now, x.1.now)) result (data_at bytes.now) }
    ensures short { IfOk result (λ x. length x.0.now < 65536) }
{
    let (len, rest) = u16_at(bytes)?;
    rest.split_at_checked(len as usize).ok_or(RestoreFault::Bad)
}

/// A text behind its length (MQTT 3.1.1, section 1.5.3).
#[tactic(auto, unfolding(mqtt_packet::specs::Reading::string_at))]
pub(crate) fn text_at(alloc: Global, bytes: &[u8]) -> Result<(Text, &[u8]), RestoreFault>
    ensures { Gives (λ x. (x.0, x.1.now)) result (string_at bytes.now) }
{
    let (content, rest) = data_at(bytes)?;
    match text_of(content) {
        Some(text) => Ok((Text::from_str(alloc, text)?, rest)),
        None => Err(RestoreFault::Bad),
    }
}

/// The text of bytes that are UTF-8 without U+0000.
#[tactic(auto, using(mqtt_packet::proofs::Strings::in_utf8, mqtt_packet::proofs::Strings::not_utf8))]
fn text_of(bytes: &[u8]) -> Option<&str>
    requires { length bytes.now < 65536 }
    ensures { option_map (λ text. text.now) result ≡ (if is_string bytes.now then Some bytes.now else None) }
{
    if bytes.contains(&0) {
        return None;
    }
    match str::from_utf8(bytes) {
        Ok(text) => Some(text),
        Err(_) => None,
    }
}

/// A topic filter behind its length (MQTT 3.1.1, section 4.7).
#[tactic(auto, unfolding(crate::specs::Reading::filter_at))]
pub(crate) fn filter_at(alloc: Global, bytes: &[u8]) -> Result<(Text, &[u8]), RestoreFault>
    ensures { Gives (λ x. (x.0, x.1.now)) result (filter_at bytes.now) }
{
    let (text, rest) = text_at(alloc, bytes)?;
    if !is_filter(text.as_str()) {
        return Err(RestoreFault::Bad);
    }
    Ok((text, rest))
}

/// A value behind which nothing stands.
pub(crate) fn whole<T: Drop>(value: T, rest: &[u8]) -> Result<T, RestoreFault>
    ensures { Gives (λ x. x) result (whole value rest.now) }
{
    match rest {
        [] => Ok(value),
        [_, ..] => Err(RestoreFault::Bad),
    }
}
