//! Each call against messages that were worked out by hand from RFC 8949.

use arrayvec::ArrayVec;
use std::test::Fail;
use stream_blocks::{
    AskBlocks, CborFault, Head, Missing, TooSmall, read_block, read_request, write_block,
    write_request,
};

/// A block of three bytes: file 0, index 0, `abc`.
const BLOCK: [u8; 19] = [
    0xa4, 0x61, 0x66, 0x00, 0x61, 0x69, 0x00, 0x61, 0x6c, 0x03, 0x61, 0x70, 0x43, 0x61, 0x62, 0x63,
    0, 0, 0,
];

/// A request for the one block of an image: file 0, block size 4,096.
const REQUEST: [u8; 29] = [
    0xa6, 0x61, 0x63, 0x65, 0x66, 0x65, 0x74, 0x63, 0x68, 0x61, 0x66, 0x00, 0x61, 0x6c, 0x19, 0x10,
    0x00, 0x61, 0x6f, 0x00, 0x61, 0x62, 0x41, 0x01, 0x61, 0x6e, 0x01, 0, 0,
];

#[test]
fn a_block_is_written_and_read(rt: HostRuntime) {
    let mut message = [0; 16];
    assert_eq!(rt; write_block(0, 0, b"abc", message.as_mut_slice()), Ok(16));
    assert_eq!(rt; message.as_slice(), &BLOCK[..16]);
    assert_eq!(rt;
        write_block(0, 0, b"abcd", message.as_mut_slice()),
        Err(TooSmall { needed: 17 })
    );
    let mut out = [7; 5];
    let want = Head {
        file: 0,
        index: 0,
        len: 3,
    };
    assert_eq!(rt;
        read_block(message.as_slice(), out.as_mut_slice()),
        Ok(want)
    );
    assert_eq!(rt; out.as_slice(), b"abc\x07\x07".as_slice());
}

#[test]
fn indefinite_lengths_read_the_same(rt: HostRuntime) {
    let message = [
        0xbf, 0x61, 0x66, 0x00, 0x61, 0x69, 0x00, 0x61, 0x6c, 0x03, 0x61, 0x70, 0x5f, 0x41, 0x61,
        0x42, 0x62, 0x63, 0xff, 0xff,
    ];
    let mut out = [0; 3];
    let want = Head {
        file: 0,
        index: 0,
        len: 3,
    };
    assert_eq!(rt;
        read_block(message.as_slice(), out.as_mut_slice()),
        Ok(want)
    );
    assert_eq!(rt; out.as_slice(), b"abc".as_slice());
}

#[test]
fn arguments_have_any_width_and_other_keys_are_passed_over(rt: HostRuntime) {
    let message = [
        0xb8, 0x06, // a map of 6, in a byte of its own
        0x78, 0x01, 0x66, 0x1b, 0x01, 0x02, 0x03, 0x04, 0x05, 0x06, 0x07, 0x08, // f, 8 bytes
        0x61, 0x78, 0x7f, 0x61, 0x61, 0x62, 0xc3, 0xa9, 0xff, // x, text in chunks
        0x61, 0x69, 0x1a, 0x00, 0x01, 0x00, 0x00, // i, 4 bytes
        0x61, 0x79, 0x39, 0x01, 0x00, // y, negative
        0x61, 0x6c, 0x19, 0x00, 0x09, // l, 2 bytes, not the payload's length
        0x61, 0x70, 0x58, 0x02, 0x61, 0x62, // p
    ];
    let mut out = [0; 2];
    let want = Head {
        file: 0x0102_0304_0506_0708,
        index: 65_536,
        len: 2,
    };
    assert_eq!(rt;
        read_block(message.as_slice(), out.as_mut_slice()),
        Ok(want)
    );
    assert_eq!(rt; out.as_slice(), b"ab".as_slice());
}

#[test]
fn each_fault_has_its_place(rt: HostRuntime) {
    let cases: [(&[u8], CborFault); 14] = [
        (b"\xa0", CborFault::Missing { key: b'f' }),
        (
            b"\xa2\x61\x66\x00\x61\x66\x00",
            CborFault::Twice { key: b'f' },
        ),
        (b"\xff", CborFault::Bad { at: 0 }),
        (b"", CborFault::Bad { at: 0 }),
        // A byte behind the map.
        (b"\xa0\x00", CborFault::Bad { at: 1 }),
        // A break where a value is wanted, and in a map of definite length.
        (b"\xbf\x61\x78\xff", CborFault::Bad { at: 3 }),
        (b"\xa1\xff", CborFault::Bad { at: 1 }),
        // A key that isn't a text of definite length.
        (b"\xa1\x7f\x61\x66\xff\x00", CborFault::Bad { at: 1 }),
        // A wanted key with a value of another kind, also where a chunk of it is wrong.
        (b"\xa1\x61\x66\x20", CborFault::Bad { at: 3 }),
        (b"\xa1\x61\x70\x7f\x00\xff", CborFault::Bad { at: 3 }),
        // A chunk of indefinite length, one that runs over the end, and none where one is wanted.
        (b"\xa1\x61\x70\x5f\x5f\xff\xff", CborFault::Bad { at: 4 }),
        (b"\xa1\x61\x70\x5f\x42\x00", CborFault::Bad { at: 4 }),
        (b"\xa1\x61\x70\x5f\x41\x00", CborFault::Bad { at: 6 }),
        // Text that isn't UTF-8.
        (b"\xa1\x61\x78\x61\xff", CborFault::Bad { at: 3 }),
    ];
    let mut out = [0; 4];
    for (message, fault) in cases {
        assert_eq!(rt;
            read_block(message, out.as_mut_slice()),
            Err(fault),
            "at {message:?}"
        );
    }
}

#[test]
fn no_front_of_a_block_is_one(rt: HostRuntime) {
    // Where the item begins that is cut, or is wanted.
    let places = [0, 1, 1, 3, 4, 4, 6, 7, 7, 9, 10, 10, 12, 12, 12, 12];
    let mut out = [0; 3];
    for (len, at) in places.iter().enumerate() {
        let answer = read_block(&BLOCK[..len], out.as_mut_slice());
        assert_eq!(rt; answer, Err(CborFault::Bad { at: *at }), "at {len}");
    }
}

#[test]
fn a_payload_has_room_or_is_not_copied(rt: HostRuntime) {
    let mut out = [7; 2];
    let answer = read_block(&BLOCK[..16], out.as_mut_slice());
    assert_eq!(rt; answer, Err(CborFault::TooBig { key: b'p' }));
    assert_eq!(rt; out.as_slice(), b"\x07\x07".as_slice());
}

#[test]
fn a_request_is_written_and_read(rt: HostRuntime) -> Result<(), Fail> {
    let mut map = ArrayVec::new();
    map.push(1);
    let ask = AskBlocks {
        file: 0,
        size: 4096,
        offset: 0,
        number: 1,
        map,
    };
    let mut out = [0; 27];
    assert_eq!(rt; write_request(&ask, out.as_mut_slice()), Ok(27));
    assert_eq!(rt; out.as_slice(), &REQUEST[..27]);
    assert_eq!(rt;
        write_request(&ask, &mut out[..26]),
        Err(TooSmall { needed: 27 })
    );
    assert_eq!(rt; read_request(&REQUEST[..27]), Ok(ask));
    Ok(())
}

#[test]
fn the_first_value_that_is_too_big_counts(rt: HostRuntime) {
    let message =
        b"\xa5\x61\x66\x00\x61\x6f\x1b\0\0\0\x01\0\0\0\0\x61\x6c\x1b\0\0\0\x01\0\0\0\0\x61\x6e\x01\x61\x62\x40";
    assert_eq!(rt;
        read_request(message.as_slice()),
        Err(CborFault::TooBig { key: b'o' })
    );
}

#[test]
fn marked_blocks_are_there(rt: HostRuntime) -> Result<(), Fail> {
    let mut missing: Missing<3> = Missing::new(rt.alloc(), 130)?;
    assert_eq!(rt; missing.blocks(), 130);
    assert_eq!(rt; missing.count(), 130);
    for i in 0..128 {
        assert!(rt; missing.mark(i), "at {i}");
        assert!(rt; !missing.mark(i), "at {i}");
        assert!(rt; !missing.is_missing(i), "at {i}");
        assert_eq!(rt; missing.first_missing(), Some(i + 1), "at {i}");
    }
    assert!(rt; missing.mark(129));
    assert_eq!(rt; missing.count(), 1);
    assert!(rt; missing.is_missing(128));
    assert!(rt; !missing.is_missing(130));
    assert!(rt; missing.mark(128));
    assert_eq!(rt; missing.first_missing(), None);
    Ok(())
}
