//! Packets and their bytes, worked out by hand from the standard.

use mqtt_packet::{
    Ask, Asks, Blob, Codes, Copied, Filters, Next, NoMemory, PACKET_LIMIT, Packet, Qos, Splitter,
    Text, TooSmall, Will, encode, spelled_len,
};
use std::alloc::Global;
use std::test::Fail;

fn connect(alloc: Global, client: &str) -> Result<Packet, NoMemory> {
    Ok(Packet::Connect {
        clean: false,
        keep_alive: 60,
        client: Text::from_str(alloc, client)?,
        will: None,
        user: None,
        password: None,
    })
}

fn full_connect(alloc: Global) -> Result<Packet, NoMemory> {
    let will = Will {
        topic: Text::from_str(alloc, "gone")?,
        message: Blob::from_vec(b"x".to_vec(alloc)?),
        qos: Qos::AtLeastOnce,
        retain: true,
    };
    Ok(Packet::Connect {
        clean: true,
        keep_alive: 9,
        client: Text::from_str(alloc, "dev")?,
        will: Some(will),
        user: Some(Text::from_str(alloc, "me")?),
        password: Some(Blob::from_vec(b"pw".to_vec(alloc)?)),
    })
}

fn publish(
    alloc: Global,
    dup: bool,
    qos: Qos,
    id: u16,
    topic: &str,
    payload: &[u8],
) -> Result<Packet, NoMemory> {
    Ok(Packet::Publish {
        dup,
        qos,
        retain: false,
        topic: Text::from_str(alloc, topic)?,
        id,
        payload: Blob::from_vec(payload.to_vec(alloc)?),
    })
}

fn subscribe(alloc: Global) -> Result<Packet, NoMemory> {
    let mut asks = Asks::new(alloc);
    asks.push(Ask {
        filter: Text::from_str(alloc, "a/+")?,
        qos: Qos::ExactlyOnce,
    })?;
    Ok(Packet::Subscribe { id: 5, asks })
}

fn unsubscribe(alloc: Global) -> Result<Packet, NoMemory> {
    let mut filters = Filters::new(alloc);
    filters.push(Text::from_str(alloc, "a/+")?)?;
    Ok(Packet::Unsubscribe { id: 7, filters })
}

fn suback(alloc: Global) -> Result<Packet, NoMemory> {
    let codes = Codes::from_vec([0, 128].to_vec(alloc)?);
    Ok(Packet::SubAck { id: 6, codes })
}

/// The call had memory, and its answer is this.
fn gives(splitter: &mut Splitter, want: &Next) -> bool {
    match splitter.next() {
        Ok(next) => next == *want,
        Err(_) => false,
    }
}

fn takes(splitter: &mut Splitter, piece: &[u8]) -> bool {
    splitter.feed(piece).is_ok()
}

/// These bytes alone are answered so.
fn is_answered(alloc: Global, bytes: &[u8], want: &Next) -> bool {
    let mut splitter = Splitter::new(alloc);
    takes(&mut splitter, bytes) && gives(&mut splitter, want)
}

/// The packet is sound, and has these bytes, which are fewer than 64.
fn is_spelled(packet: &Packet, want: &[u8]) -> bool {
    if !packet.is_sound() || spelled_len(packet) != want.len() {
        return false;
    }
    let mut out = [0xFF; 64];
    match encode(packet, out.as_mut_slice()) {
        Ok(len) => out.get(..len) == Some(want),
        Err(_) => false,
    }
}

fn is_copied(alloc: Global, packet: &Packet) -> bool {
    match packet.copy(alloc) {
        Ok(copy) => copy == *packet,
        Err(_) => false,
    }
}

/// The packet has these bytes, they are read as it, and its copy is equal to it.
fn shows(alloc: Global, made: Result<Packet, NoMemory>, want: &[u8]) -> bool {
    match made {
        Ok(packet) => {
            is_spelled(&packet, want)
                && is_copied(alloc, &packet)
                && is_answered(alloc, want, &Next::Packet(packet))
        }
        Err(_) => false,
    }
}

#[test]
fn a_connect_has_these_bytes(rt: HostRuntime) {
    let alloc = rt.alloc();
    let want = b"\x10\x0F\x00\x04MQTT\x04\x00\x00\x3C\x00\x03dev";
    assert!(rt; shows(alloc, connect(alloc, "dev"), want.as_slice()));
    let want =
        b"\x10\x20\x00\x04MQTT\x04\xEE\x00\x09\x00\x03dev\x00\x04gone\x00\x01x\x00\x02me\x00\x02pw";
    assert!(rt; shows(alloc, full_connect(alloc), want.as_slice()));
}

#[test]
fn a_publish_has_these_bytes(rt: HostRuntime) {
    let alloc = rt.alloc();
    let once = publish(alloc, true, Qos::ExactlyOnce, 1, "a", b"x".as_slice());
    assert!(rt; shows(alloc, once, b"\x3C\x06\x00\x01a\x00\x01x".as_slice()));
}

#[test]
fn subscriptions_have_these_bytes(rt: HostRuntime) {
    let alloc = rt.alloc();
    let want = b"\x82\x08\x00\x05\x00\x03a/+\x02".as_slice();
    assert!(rt; shows(alloc, subscribe(alloc), want));
    let want = b"\x90\x04\x00\x06\x00\x80".as_slice();
    assert!(rt; shows(alloc, suback(alloc), want));
    let want = b"\xA2\x07\x00\x07\x00\x03a/+".as_slice();
    assert!(rt; shows(alloc, unsubscribe(alloc), want));
}

#[test]
fn acknowledgements_have_these_bytes(rt: HostRuntime) {
    let alloc = rt.alloc();
    let packet = Packet::PubAck { id: 1 };
    assert!(rt; shows(alloc, Ok(packet), [0x40, 2, 0, 1].as_slice()));
    let packet = Packet::PubRec { id: 2 };
    assert!(rt; shows(alloc, Ok(packet), [0x50, 2, 0, 2].as_slice()));
    let packet = Packet::PubRel { id: 258 };
    assert!(rt; shows(alloc, Ok(packet), [0x62, 2, 1, 2].as_slice()));
    let packet = Packet::PubComp { id: 4 };
    assert!(rt; shows(alloc, Ok(packet), [0x70, 2, 0, 4].as_slice()));
    let packet = Packet::UnsubAck { id: 8 };
    assert!(rt; shows(alloc, Ok(packet), [0xB0, 2, 0, 8].as_slice()));
    let present = true;
    let packet = Packet::ConnAck { present, code: 0 };
    assert!(rt; shows(alloc, Ok(packet), [0x20, 2, 1, 0].as_slice()));
}

#[test]
fn empty_packets_have_these_bytes(rt: HostRuntime) {
    let alloc = rt.alloc();
    assert!(rt; shows(alloc, Ok(Packet::PingReq), [0xC0, 0].as_slice()));
    assert!(rt; shows(alloc, Ok(Packet::PingResp), [0xD0, 0].as_slice()));
    assert!(rt; shows(alloc, Ok(Packet::Disconnect), [0xE0, 0].as_slice()));
}

/// A buffer of eight bytes is too short for this packet of nine, and stays as it was; one of nine
/// is not.
fn is_left_alone(packet: &Packet) -> bool {
    if !packet.is_sound() {
        return false;
    }
    let mut out = [0xFF; 9];
    let (short, _) = out.as_mut_slice().split_at_mut(8);
    let answer = encode(packet, short);
    let same = out == [0xFF; 9];
    same && answer == Err(TooSmall { needed: 9 }) && encode(packet, out.as_mut_slice()) == Ok(9)
}

#[test]
fn a_short_buffer_stays_as_it_was(rt: HostRuntime) -> Result<(), Fail> {
    let alloc = rt.alloc();
    let packet = publish(alloc, false, Qos::AtMostOnce, 0, "a/b", b"hi".as_slice())?;
    assert!(rt; is_left_alone(&packet));
    Ok(())
}

/// A PUBLISH with so many bytes of payload, whose topic takes three.
fn padded(alloc: Global, payload: usize) -> Result<Packet, NoMemory> {
    let bytes = vec![in alloc; 7u8; payload]?;
    publish(alloc, false, Qos::AtMostOnce, 0, "t", bytes.as_slice())
}

/// All bytes of a packet, if it is sound.
fn spelled(alloc: Global, packet: &Packet) -> Option<Vec<u8>> {
    if !packet.is_sound() {
        return None;
    }
    let mut out = vec![in alloc; 0u8; spelled_len(packet)].ok()?;
    match encode(packet, out.as_mut_slice()) {
        Ok(len) if len == out.len() => Some(out),
        _ => None,
    }
}

/// Behind the first byte stand these, and what is read is the packet again.
fn shows_remaining_length(alloc: Global, payload: usize, want: &[u8]) -> bool {
    let Ok(packet) = padded(alloc, payload) else {
        return false;
    };
    match spelled(alloc, &packet) {
        Some(bytes) => {
            bytes.get(1..).is_some_and(|rest| rest.starts_with(want))
                && is_answered(alloc, bytes.as_slice(), &Next::Packet(packet))
        }
        None => false,
    }
}

#[test]
fn the_remaining_length_has_these_bytes(rt: HostRuntime) {
    let alloc = rt.alloc();
    for (payload, want) in [
        (124, b"\x7F".as_slice()),
        (125, b"\x80\x01".as_slice()),
        (318, b"\xC1\x02".as_slice()),
        (16380, b"\xFF\x7F".as_slice()),
        (16381, b"\x80\x80\x01".as_slice()),
    ] {
        assert!(rt;
            shows_remaining_length(alloc, payload, want),
            "at {payload}"
        );
    }
}

fn is_sound(made: Result<Packet, NoMemory>) -> Option<bool> {
    match made {
        Ok(packet) => Some(packet.is_sound()),
        Err(_) => None,
    }
}

#[test]
fn a_packet_may_have_as_many_bytes_as_the_limit(rt: HostRuntime) {
    let alloc = rt.alloc();
    // Seven bytes: the first, three of the remaining length, and the topic with its length.
    assert_eq!(rt; is_sound(padded(alloc, PACKET_LIMIT - 7)), Some(true));
    assert_eq!(rt; is_sound(padded(alloc, PACKET_LIMIT - 6)), Some(false));
}

#[test]
fn fields_out_of_range_are_not_sound(rt: HostRuntime) {
    let alloc = rt.alloc();
    assert_eq!(rt; is_sound(connect(alloc, "a\0b")), Some(false));
    let repeated = publish(alloc, true, Qos::AtMostOnce, 0, "a", b"".as_slice());
    assert_eq!(rt; is_sound(repeated), Some(false));
    let asks = Asks::new(alloc);
    assert_eq!(rt;
        is_sound(Ok(Packet::Subscribe { id: 1, asks })),
        Some(false)
    );
}

#[test]
fn these_bytes_are_bad(rt: HostRuntime) {
    let alloc = rt.alloc();
    for bytes in [
        // Types 0 and 15, flags that a type doesn't have, QoS 3, DUP at QoS 0.
        b"\x00".as_slice(),
        b"\xF0".as_slice(),
        b"\x60".as_slice(),
        b"\x36".as_slice(),
        b"\x38".as_slice(),
        // Remaining lengths that are overlong or go past four bytes.
        b"\xC0\x80\x00".as_slice(),
        b"\x30\xFF\xFF\xFF\x80".as_slice(),
        // Identifier 0, bytes too many and too few.
        b"\x40\x02\x00\x00".as_slice(),
        b"\x40\x03\x00\x01\x00".as_slice(),
        b"\xD0\x01\x00".as_slice(),
        b"\x30\x03\x00\x02a".as_slice(),
        // A topic with U+0000, and one that isn't UTF-8.
        b"\x30\x03\x00\x01\x00".as_slice(),
        b"\x30\x03\x00\x01\xC3".as_slice(),
        // Code 3, no code, QoS 3, a session beside a refusal, code 6.
        b"\x90\x03\x00\x01\x03".as_slice(),
        b"\x90\x02\x00\x01".as_slice(),
        b"\x82\x06\x00\x01\x00\x01a\x03".as_slice(),
        b"\x20\x02\x01\x01".as_slice(),
        b"\x20\x02\x00\x06".as_slice(),
        // The reserved connect flag, a will's QoS without a will, a password without a user.
        b"\x10\x0C\x00\x04MQTT\x04\x01\x00\x00\x00\x00".as_slice(),
        b"\x10\x0C\x00\x04MQTT\x04\x08\x00\x00\x00\x00".as_slice(),
        b"\x10\x0E\x00\x04MQTT\x04\x40\x00\x00\x00\x00\x00\x00".as_slice(),
        // Protocol level 3.
        b"\x10\x0C\x00\x04MQTT\x03\x00\x00\x00\x00\x00".as_slice(),
    ] {
        assert!(rt;
            is_answered(alloc, bytes, &Next::Bad { at: 0 }),
            "at {bytes:?}"
        );
    }
}

#[test]
fn a_verdict_comes_behind_the_packets_and_stays(rt: HostRuntime) {
    let alloc = rt.alloc();
    let mut splitter = Splitter::new(alloc);
    assert!(rt; takes(&mut splitter, b"\xD0\x00\x36".as_slice()));
    assert!(rt; takes(&mut splitter, b"\x00".as_slice()));
    assert!(rt; gives(&mut splitter, &Next::Packet(Packet::PingResp)));
    assert!(rt; gives(&mut splitter, &Next::Bad { at: 2 }));
    assert!(rt; takes(&mut splitter, b"\xD0\x00".as_slice()));
    assert!(rt; gives(&mut splitter, &Next::Bad { at: 2 }));
}

#[test]
fn a_packet_that_is_too_long_says_its_length(rt: HostRuntime) {
    let long = b"\x30\xFF\xFF\xFF\x7F".as_slice();
    let len = 268_435_460;
    assert!(rt; is_answered(rt.alloc(), long, &Next::TooLong { at: 0, len }));
}

/// A PUBLISH of nine bytes and a PINGRESP.
const STREAM: [u8; 11] = *b"\x30\x07\x00\x03a/bhi\xD0\x00";

fn gives_message(alloc: Global, splitter: &mut Splitter) -> bool {
    match publish(alloc, false, Qos::AtMostOnce, 0, "a/b", b"hi".as_slice()) {
        Ok(message) => gives(splitter, &Next::Packet(message)),
        Err(_) => false,
    }
}

/// Two pieces together have the two packets of the stream, and nothing behind them.
fn have_both(alloc: Global, front: &[u8], back: &[u8]) -> bool {
    let mut splitter = Splitter::new(alloc);
    takes(&mut splitter, front)
        && takes(&mut splitter, back)
        && gives_message(alloc, &mut splitter)
        && gives(&mut splitter, &Next::Packet(Packet::PingResp))
        && gives(&mut splitter, &Next::More)
        && splitter.held() == 0
}

#[test]
fn a_stream_has_its_packets_wherever_it_is_cut(rt: HostRuntime) {
    for cut in 0..=STREAM.len() {
        let (front, back) = STREAM.as_slice().split_at(cut);
        assert!(rt; have_both(rt.alloc(), front, back), "at {cut}");
    }
}

/// What a stream gives behind the byte with this index.
fn is_next(alloc: Global, splitter: &mut Splitter, index: usize) -> bool {
    match index {
        8 => gives_message(alloc, splitter),
        9 => gives(splitter, &Next::More) && splitter.held() == 1,
        10 => gives(splitter, &Next::Packet(Packet::PingResp)),
        _ => gives(splitter, &Next::More),
    }
}

#[test]
fn a_stream_may_come_byte_by_byte(rt: HostRuntime) {
    let alloc = rt.alloc();
    let mut splitter = Splitter::new(alloc);
    for (index, byte) in STREAM.iter().enumerate() {
        assert!(rt; takes(&mut splitter, [*byte].as_slice()));
        assert!(rt; is_next(alloc, &mut splitter, index), "at {index}");
    }
}
