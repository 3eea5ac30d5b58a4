//! Effects as text, with packets and payloads in hexadecimal.

use agent_journal::{Effect, Effects, Message, Outcome};
use mqtt_packet::{Next, Packet, Qos, Splitter, encode};
use std::alloc::{AllocError, Global};

/// Each effect behind ` > `.
pub fn write_effects(alloc: Global, effects: &Effects) -> Result<String, AllocError> {
    let mut text = String::new(alloc);
    for effect in effects.iter() {
        text.push_str(" > ")?;
        write_effect(alloc, &mut text, effect)?;
    }
    Ok(text)
}

fn write_effect(alloc: Global, text: &mut String, effect: &Effect) -> Result<(), AllocError> {
    match effect {
        Effect::Send { packet } => write_packet(alloc, text, packet),
        Effect::Done { task, seq, outcome } => {
            let front = format!(in alloc; "done {task} {seq} ")?;
            text.push_str(front.as_str())?;
            write_outcome(alloc, text, outcome)
        }
        Effect::Pass { task, message } => write_message(alloc, text, *task, message),
        Effect::Closed { task } => {
            let line = format!(in alloc; "closed {task}")?;
            text.push_str(line.as_str())
        }
    }
}

fn write_packet(alloc: Global, text: &mut String, packet: &Packet) -> Result<(), AllocError> {
    let mut room = [0; 64];
    text.push_str("send ")?;
    if packet.is_sound() {
        if let Ok(count) = encode(packet, room.as_mut_slice()) {
            write_hex(alloc, text, room.as_slice(), count)?;
        }
    }
    Ok(())
}

/// The first bytes in hexadecimal.
fn write_hex(
    alloc: Global,
    text: &mut String,
    bytes: &[u8],
    count: usize,
) -> Result<(), AllocError> {
    for byte in bytes.iter().take(count) {
        let digits = format!(in alloc; "{:02x}", *byte)?;
        text.push_str(digits.as_str())?;
    }
    Ok(())
}

fn write_outcome(alloc: Global, text: &mut String, outcome: &Outcome) -> Result<(), AllocError> {
    match outcome {
        Outcome::Done => text.push_str("done"),
        Outcome::Granted { codes } => {
            text.push_str("granted ")?;
            write_hex(alloc, text, codes.as_slice(), codes.len())
        }
        Outcome::NoRoom => text.push_str("noroom"),
        Outcome::NoRoute => text.push_str("noroute"),
        Outcome::NotConnected => text.push_str("notconnected"),
        Outcome::LinkLost => text.push_str("linklost"),
        Outcome::SessionLost => text.push_str("sessionlost"),
        Outcome::Cancelled => text.push_str("cancelled"),
        Outcome::NoMemory => text.push_str("nomemory"),
    }
}

fn write_message(
    alloc: Global,
    text: &mut String,
    task: u32,
    message: &Message,
) -> Result<(), AllocError> {
    let level = match message.qos {
        Qos::AtMostOnce => 0u32,
        Qos::AtLeastOnce => 1,
        Qos::ExactlyOnce => 2,
    };
    let front = format!(in alloc; "pass {task} {level} {} ", message.topic.as_str())?;
    text.push_str(front.as_str())?;
    write_hex(
        alloc,
        text,
        message.payload.as_slice(),
        message.payload.len(),
    )
}

/// The packet of these bytes, given in hexadecimal.
pub fn read(alloc: Global, digits: &str) -> Option<Packet> {
    let bytes = bytes_of(alloc, digits.as_bytes()).ok()?;
    let mut splitter = Splitter::new(alloc);
    splitter.feed(bytes.as_slice()).ok()?;
    match splitter.next() {
        Ok(Next::Packet(packet)) => Some(packet),
        _ => None,
    }
}

fn bytes_of(alloc: Global, digits: &[u8]) -> Result<Vec<u8>, AllocError> {
    let mut bytes = Vec::new(alloc);
    let mut high = None;
    for digit in digits {
        let value = if *digit < b'a' {
            digit.wrapping_sub(b'0')
        } else {
            digit.wrapping_sub(b'a' - 10)
        };
        match high {
            None => high = Some(value),
            Some(first) => {
                bytes.push(value.wrapping_add(16u8.wrapping_mul(first)))?;
                high = None;
            }
        }
    }
    Ok(bytes)
}
