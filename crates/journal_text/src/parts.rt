//! Texts in parts, written without memory of their own.

ghost use Rattle.std.specs.Prelude.{◌≡◌, ℕ, ◌+◌, ◌*◌, ◌^◌, ◌<◌, ◌≤◌, ◌∷◌, [], ◌++◌, length, take, drop, true, decimal, IfOk, OnErr, IsErrOf};
ghost use Rattle.std.specs.List.{flat_map, AllByRecursion};
ghost use Rattle.std.specs.Io.KnownBytes.{Appends};
ghost use Rattle.hex.specs.Hex.{encode_lower};
ghost use Rattle.agent_link.specs.Counts.{counted};
ghost use Rattle.agent_link.specs.Writes.{Writes, AppendsFront};
ghost use Rattle.mqtt_packet.specs.Spelling.{spelling, is_sound};
ghost use Rattle.plain_text.specs.Escapes as escapes;
ghost use Rattle.plain_text.specs.Payloads.{payload_text};
ghost use Rattle.journal_text.specs.Parts.{part_text, IsSoundPart};
ghost use Rattle.journal_text.specs.Texts.{count_text};

use agent_link::{Fault, Sink, write_all};
use itoa::Buffer;
use mqtt_packet::{PACKET_LIMIT, Packet, encode, spelled_len};
use plain_text::{escape, plain_len};

/// A part of a text.
#[derive(Drop)]
pub enum Part<'a> {
    /// As it stands.
    Plain(&'a [u8]),
    /// In hexadecimal, lower case.
    Hex(&'a [u8]),
    /// In hexadecimal, or `-` where it is empty.
    Payload(&'a [u8]),
    /// As one word: each byte outside 21 to 7E hexadecimal, and each `%`, escaped.
    Escaped(&'a [u8]),
    /// In decimal.
    Number(u64),
    /// In decimal, a count that may be larger than a `u64`.
    Total(u128),
    /// In decimal, or nothing.
    Count(Option<u64>),
    /// The packet's bytes in hexadecimal.
    Spelled(&'a Packet),
}

/// Writes the parts one after another. After a fault a front of them was written.
pub fn write_parts<O: Sink>(out: &mut O, parts: &[Part<'_>]) -> Result<(), Fault>
    requires { AllByRecursion IsSoundPart parts.now }
    ensures text { Writes (O.written out.old) (O.written out.new) result (flat_map part_text parts.now) }
    ensures cause { O.faults out.new ≡ counted result (O.faults out.old) }
{
    for part in parts {
        write_part(out, part)?;
    }
    Ok(())
}

fn write_part<O: Sink>(out: &mut O, part: &Part<'_>) -> Result<(), Fault>
    requires { IsSoundPart part.now }
    ensures text { Writes (O.written out.old) (O.written out.new) result (part_text part.now) }
    ensures cause { O.faults out.new ≡ counted result (O.faults out.old) }
{
    match part {
        Part::Plain(text) => write_all(out, text),
        Part::Hex(bytes) => write_hex(out, bytes),
        Part::Payload(bytes) => write_payload(out, bytes),
        Part::Escaped(text) => write_escaped(out, text),
        Part::Number(n) => write_number(out, *n),
        Part::Total(n) => write_total(out, *n),
        Part::Count(count) => write_count(out, *count),
        Part::Spelled(packet) => write_packet(out, packet),
    }
}

fn write_number<O: Sink>(out: &mut O, n: u64) -> Result<(), Fault>
    ensures text { Writes (O.written out.old) (O.written out.new) result (decimal n) }
    ensures cause { O.faults out.new ≡ counted result (O.faults out.old) }
{
    let mut buffer = Buffer::new();
    write_all(out, buffer.format(n).as_bytes())
}

fn write_total<O: Sink>(out: &mut O, n: u128) -> Result<(), Fault>
    ensures text { Writes (O.written out.old) (O.written out.new) result (decimal n) }
    ensures cause { O.faults out.new ≡ counted result (O.faults out.old) }
{
    let mut buffer = Buffer::new();
    write_all(out, buffer.format(n).as_bytes())
}

fn write_count<O: Sink>(out: &mut O, count: Option<u64>) -> Result<(), Fault>
    ensures text { Writes (O.written out.old) (O.written out.new) result (count_text count) }
    ensures cause { O.faults out.new ≡ counted result (O.faults out.old) }
{
    match count {
        Some(n) => write_number(out, n),
        None => write_all(out, b"".as_slice()),
    }
}

fn write_payload<O: Sink>(out: &mut O, bytes: &[u8]) -> Result<(), Fault>
    ensures text { Writes (O.written out.old) (O.written out.new) result (payload_text bytes.now) }
    ensures cause { O.faults out.new ≡ counted result (O.faults out.old) }
{
    match bytes {
        [] => write_all(out, b"-".as_slice()),
        [_, ..] => write_hex(out, bytes),
    }
}

/// How many bytes are turned into digits at a time.
const PIECE: usize = 256;

#[tactic(auto, using(crate::proofs::Piecewise::hex_more, crate::proofs::Piecewise::hex_stopped, crate::proofs::Piecewise::hex_all, crate::proofs::Piecewise::hex_none))]
fn write_hex<O: Sink>(out: &mut O, bytes: &[u8]) -> Result<(), Fault>
    ensures text { Writes (O.written out.old) (O.written out.new) result (encode_lower bytes.now) }
    ensures cause { O.faults out.new ≡ counted result (O.faults out.old) }
{
    let mut at = 0;
    while at < bytes.len() {
        let (_, rest) = bytes.split_at(at);
        let (piece, _) = rest.split_at(rest.len().min(PIECE));
        write_digits(out, piece)?;
        at += piece.len();
    }
    Ok(())
}

fn write_digits<O: Sink>(out: &mut O, piece: &[u8]) -> Result<(), Fault>
    requires { length piece.now ≤ 256 }
    ensures text { Writes (O.written out.old) (O.written out.new) result (encode_lower piece.now) }
    ensures cause { O.faults out.new ≡ counted result (O.faults out.old) }
{
    let mut digits = [0u8; 2 * 256];
    let (text, _) = digits.split_at_mut(2 * piece.len());
    hex::encode_to_slice(piece, text).unwrap();
    write_all(out, text)
}

#[tactic(auto, using(crate::proofs::Piecewise::escaped_more, crate::proofs::Piecewise::escaped_stopped, crate::proofs::Piecewise::escaped_all, crate::proofs::Piecewise::escaped_none))]
fn write_escaped<O: Sink>(out: &mut O, text: &[u8]) -> Result<(), Fault>
    ensures text { Writes (O.written out.old) (O.written out.new) result (escapes.escaped text.now) }
    ensures cause { O.faults out.new ≡ counted result (O.faults out.old) }
{
    let mut at = 0;
    while at < text.len() {
        let (_, rest) = text.split_at(at);
        at += write_run(out, rest)?;
    }
    Ok(())
}

/// Writes the bytes at the front that stand for themselves, or the first one where it doesn't, and
/// answers how many.
#[tactic(auto, using(crate::proofs::Piecewise::run_plain, crate::proofs::Piecewise::run_escaped, crate::proofs::Piecewise::run_stopped, crate::proofs::Piecewise::escape_stopped))]
fn write_run<O: Sink>(out: &mut O, text: &[u8]) -> Result<usize, Fault>
    requires { 0 < length text.now }
    ensures some { IfOk result (λ n. (0 < n) × (n ≤ length text.now)) }
    ensures ok { IfOk result (λ n. Appends (O.written out.old) (O.written out.new) (escapes.escaped (take n text.now))) }
    ensures err { OnErr result (AppendsFront (O.written out.old) (O.written out.new) (escapes.escaped text.now)) }
    ensures cause { O.faults out.new ≡ counted result (O.faults out.old) }
{
    let run = plain_len(text);
    if run == 0 {
        write_all(out, escape(text[0]).as_slice())?;
        return Ok(1);
    }
    let (plain, _) = text.split_at(run);
    write_all(out, plain)?;
    Ok(run)
}

fn write_packet<O: Sink>(out: &mut O, packet: &Packet) -> Result<(), Fault>
    requires { is_sound packet.now ≡ true }
    ensures text { Writes (O.written out.old) (O.written out.new) result (encode_lower (spelling packet.now)) }
    ensures cause { O.faults out.new ≡ counted result (O.faults out.old) }
{
    // Most packets are small, and a function clears its buffer each time.
    let len = spelled_len(packet);
    if len <= 512 {
        write_packet_in::<O, 512>(out, packet)
    } else if len <= 16_384 {
        write_packet_in::<O, 16_384>(out, packet)
    } else {
        write_packet_in::<O, PACKET_LIMIT>(out, packet)
    }
}

fn write_packet_in<O: Sink, const N: usize>(out: &mut O, packet: &Packet) -> Result<(), Fault>
    requires sound { is_sound packet.now ≡ true }
    requires room { length (spelling packet.now) ≤ N }
    requires small { N < 2 ^ 63 }
    ensures text { Writes (O.written out.old) (O.written out.new) result (encode_lower (spelling packet.now)) }
    ensures cause { O.faults out.new ≡ counted result (O.faults out.old) }
{
    let mut buffer = [0u8; N];
    let len = encode(packet, buffer.as_mut_slice()).unwrap();
    write_hex(out, &buffer[..len])
}
