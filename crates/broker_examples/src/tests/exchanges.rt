//! Exchanges as text. A line is what happens to the broker, and its replies, each behind ` > `: packets in
//! hexadecimal, and `close`. An `open` takes the place of the connection that is there.

use broker_core::{Broker, Replies};
use list_types::{Blob, Text};
use mqtt_packet::{Next, Packet, Qos, Splitter, encode};
use std::alloc::{AllocError, Global};

/// The number of the first line that doesn't come about, counted from 0.
pub fn differs(broker: &mut Broker, alloc: Global, exchange: &str) -> Option<usize> {
    for (k, line) in exchange.lines().enumerate() {
        if !comes(broker, alloc, line) {
            return Some(k);
        }
    }
    None
}

/// Whether what a line says happens, and has just the replies that it names.
pub fn comes(broker: &mut Broker, alloc: Global, line: &str) -> bool {
    match answered(broker, alloc, line) {
        Ok(replies) => ends_with(line, replies.as_str()),
        Err(_) => false,
    }
}

/// Whether these are all replies of a line.
fn ends_with(line: &str, replies: &str) -> bool {
    match line.as_bytes().strip_suffix(replies.as_bytes()) {
        Some(event) => !event.contains(&b'>'),
        None => false,
    }
}

/// The word at this place, or an empty one.
fn word(line: &str, at: usize) -> &str {
    match line.split(' ').nth(at) {
        Some(word) => word,
        None => "",
    }
}

fn answered(broker: &mut Broker, alloc: Global, line: &str) -> Result<String, AllocError> {
    match word(line, 0) {
        "hear" => heard(broker, alloc, word(line, 1)),
        "local" => local(broker, alloc, qos_of(word(line, 1))),
        "open" => {
            broker.broke();
            broker.open();
            Ok(String::new(alloc))
        }
        "break" => {
            broker.broke();
            Ok(String::new(alloc))
        }
        _ => format!(in alloc; " > no event"),
    }
}

fn qos_of(word: &str) -> Qos {
    match word {
        "0" => Qos::AtMostOnce,
        "1" => Qos::AtLeastOnce,
        _ => Qos::ExactlyOnce,
    }
}

/// A packet comes.
fn heard(broker: &mut Broker, alloc: Global, digits: &str) -> Result<String, AllocError> {
    match read(alloc, digits) {
        Some(packet) => entered(broker, alloc, packet),
        None => format!(in alloc; " > no packet"),
    }
}

fn entered(broker: &mut Broker, alloc: Global, packet: Packet) -> Result<String, AllocError> {
    if !broker.is_open() || !packet.is_sound() {
        return format!(in alloc; " > no connection");
    }
    match broker.step(packet) {
        Ok(replies) => written(alloc, &replies),
        Err((_, e)) => Err(e),
    }
}

/// The broker publishes `hi` on `a/b`.
fn local(broker: &mut Broker, alloc: Global, qos: Qos) -> Result<String, AllocError> {
    let topic = Text::from_str(alloc, "a/b")?;
    let payload = Blob::from_vec(b"hi".as_slice().to_vec(alloc)?);
    if !topic_filter::is_name(topic.as_str()) || payload.len() > 131_072 {
        return format!(in alloc; " > no name");
    }
    let replies = broker.publish_local(&topic, qos, &payload)?;
    written(alloc, &replies)
}

fn written(alloc: Global, replies: &Replies) -> Result<String, AllocError> {
    let mut text = String::new(alloc);
    for packet in replies.packets.iter() {
        text.push_str(" > ")?;
        write_packet(alloc, &mut text, packet)?;
    }
    if replies.close {
        text.push_str(" > close")?;
    }
    Ok(text)
}

fn write_packet(alloc: Global, text: &mut String, packet: &Packet) -> Result<(), AllocError> {
    let mut room = [0; 64];
    if packet.is_sound() {
        if let Ok(count) = encode(packet, room.as_mut_slice()) {
            write_hex(alloc, text, room.as_slice(), count)?;
        }
    }
    Ok(())
}

/// The first bytes in hexadecimal.
fn write_hex(
    alloc: Global,
    text: &mut String,
    bytes: &[u8],
    count: usize,
) -> Result<(), AllocError> {
    for byte in bytes.iter().take(count) {
        let digits = format!(in alloc; "{:02x}", *byte)?;
        text.push_str(digits.as_str())?;
    }
    Ok(())
}

/// The packet of these bytes, given in hexadecimal.
fn read(alloc: Global, digits: &str) -> Option<Packet> {
    let bytes = bytes_of(alloc, digits.as_bytes()).ok()?;
    let mut splitter = Splitter::new(alloc);
    splitter.feed(bytes.as_slice()).ok()?;
    match splitter.next() {
        Ok(Next::Packet(packet)) => Some(packet),
        _ => None,
    }
}

fn bytes_of(alloc: Global, digits: &[u8]) -> Result<Vec<u8>, AllocError> {
    let mut bytes = Vec::new(alloc);
    let mut high = None;
    for digit in digits {
        let value = if *digit < b'a' {
            digit.wrapping_sub(b'0')
        } else {
            digit.wrapping_sub(b'a' - 10)
        };
        match high {
            None => high = Some(value),
            Some(first) => {
                bytes.push(value.wrapping_add(16u8.wrapping_mul(first)))?;
                high = None;
            }
        }
    }
    Ok(bytes)
}
