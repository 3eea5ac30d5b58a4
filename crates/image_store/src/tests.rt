//! What no clause says: updates from the first block to the kept image, with digests of FIPS 180-4, and each call of
//! the bank failing in turn. Memory is ample here, and no call answers that it isn't.

use crate::{Bank, MemoryBank, Put, PutFault, Verdict, Writer};
use agent_link::Fault;
use std::alloc::Global;
use stream_blocks::{Head, read_block};

/// The digest of `abc`, by FIPS 180-4.
const ABC: [u8; 32] =
    *b"\xba\x78\x16\xbf\x8f\x01\xcf\xea\x41\x41\x40\xde\x5d\xae\x22\x23\xb0\x03\x61\xa3\x96\x17\x7a\x9c\xb4\x10\xff\x61\xf2\x00\x15\xad";

/// The digest of `abd`.
const ABD: [u8; 32] =
    *b"\xa5\x2d\x15\x9f\x26\x2b\x2c\x6d\xdb\x72\x4a\x61\x84\x0b\xef\xc3\x6e\xb3\x0c\x88\x87\x7a\x40\x30\xb6\x5c\xbe\x86\x29\x84\x49\xc9";

/// The digest of 256 bytes of 1 and 256 of 2.
const TWO_BLOCKS: [u8; 32] =
    *b"\xb9\xa2\xdb\xf1\x9e\x36\x61\xe5\x07\x90\x6c\xe4\xb5\x4e\x4a\x02\x80\xb6\x74\x3e\xbc\x40\x8d\xe6\x70\xa0\x46\x03\xf7\x86\xd3\x50";

/// Data messages of CBOR (RFC 8949) with block 0 of file 0: the payload is `abc`, and `abd`.
const ABC_BLOCK: [u8; 16] = *b"\xa4\x61\x66\x00\x61\x69\x00\x61\x6c\x03\x61\x70\x43\x61\x62\x63";

const ABD_BLOCK: [u8; 16] = *b"\xa4\x61\x66\x00\x61\x69\x00\x61\x6c\x03\x61\x70\x43\x61\x62\x64";

/// A whole update to the image `abc`: whether it was accepted.
fn update<B: Bank>(alloc: Global, bank: &mut B, magic: [u8; 2]) -> Result<bool, PutFault> {
    let mut writer = Writer::new(alloc, bank, 0, 3, 256, ABC)?;
    writer.put(bank, 0, 0, b"abc")?;
    match writer.finish(bank)? {
        Verdict::Testing => {}
        _ => return Ok(false),
    }
    if writer.test(bank, magic.as_slice())? {
        bank.accept()?;
        return Ok(true);
    }
    bank.reject()?;
    Ok(false)
}

/// Whether there is an image of these bytes.
fn is(image: Option<&[u8]>, bytes: &[u8]) -> bool {
    match image {
        Some(image) => image == bytes,
        None => false,
    }
}

#[test]
fn a_new_image_is_accepted_or_rejected(rt: HostRuntime) -> Result<(), Fault> {
    let alloc = rt.alloc();
    let old = Vec::from_slice(alloc, b"old")?;
    let mut bank = MemoryBank::with(alloc, old, Vec::new(alloc));
    assert_eq!(rt; update(alloc, &mut bank, *b"\0\0"), Ok(false));
    assert!(rt; is(bank.active(), b"old"));
    assert!(rt; bank.testing().is_none());
    assert_eq!(rt; update(alloc, &mut bank, *b"ab"), Ok(true));
    assert!(rt; is(bank.active(), b"abc"));
    Ok(())
}

/// A bank that keeps `old`, of which one call fails.
fn failing(alloc: Global, call: u64) -> Result<MemoryBank, Fault> {
    let old = Vec::from_slice(alloc, b"old")?;
    let fails = Vec::from_slice(alloc, &[call])?;
    Ok(MemoryBank::with(alloc, old, fails))
}

#[test]
fn each_call_of_an_update_fails_in_turn(rt: HostRuntime) -> Result<(), Fault> {
    let alloc = rt.alloc();
    // Create, write, read, activate, read, and then accept or reject.
    for magic in [*b"ab", *b"\0\0"] {
        for call in 0..6 {
            let mut bank = failing(alloc, call)?;
            let answer = update(alloc, &mut bank, magic);
            assert_eq!(rt; answer, Err(PutFault::Bank), "call {call}");
            assert!(rt; is(bank.active(), b"old"), "call {call}");
            assert_eq!(rt; is(bank.testing(), b"abc"), call >= 4, "call {call}");
            assert_eq!(rt; update(alloc, &mut bank, *b"ab"), Ok(true), "call {call}");
            assert!(rt; is(bank.active(), b"abc"), "call {call}");
        }
    }
    Ok(())
}

#[test]
fn an_abort_that_fails_leaves_the_new_image(rt: HostRuntime) -> Result<(), Fault> {
    let mut bank = failing(rt.alloc(), 2)?;
    bank.create(3)?;
    bank.write_at(0, b"abc")?;
    assert_eq!(rt; bank.abort(), Err(Fault::Failed));
    bank.activate()?;
    assert!(rt; is(bank.testing(), b"abc"));
    bank.abort()?;
    assert!(rt; bank.testing().is_none());
    assert!(rt; is(bank.active(), b"old"));
    Ok(())
}

#[test]
fn a_block_of_another_job_is_refused(rt: HostRuntime) -> Result<(), Fault> {
    let alloc = rt.alloc();
    let mut bank = MemoryBank::new(alloc, Vec::new(alloc));
    let mut writer = Writer::new(alloc, &mut bank, 0, 3, 256, ABC)?;
    assert_eq!(rt;
        writer.put(&mut bank, 1, 0, b"abc"),
        Err(PutFault::File { wanted: 0 })
    );
    assert_eq!(rt;
        writer.put(&mut bank, 0, 1, b"abc"),
        Err(PutFault::Index { blocks: 1 })
    );
    assert_eq!(rt;
        writer.put(&mut bank, 0, 0, b"ab"),
        Err(PutFault::Length { wanted: 3 })
    );
    assert_eq!(rt; writer.finish(&mut bank), Ok(Verdict::Missing { first: 0 }));
    Ok(())
}

#[test]
fn the_block_of_a_message_is_put_and_judged(rt: HostRuntime) -> Result<(), Fault> {
    let alloc = rt.alloc();
    let differs = Verdict::Differs {
        wanted: ABC,
        found: ABD,
    };
    for (message, verdict) in [(ABC_BLOCK, Verdict::Testing), (ABD_BLOCK, differs)] {
        let mut payload = [0; 3];
        let head = read_block(message.as_slice(), payload.as_mut_slice());
        assert_eq!(rt;
            head,
            Ok(Head {
                file: 0,
                index: 0,
                len: 3
            })
        );
        let mut bank = MemoryBank::new(alloc, Vec::new(alloc));
        let mut writer = Writer::new(alloc, &mut bank, 0, 3, 256, ABC)?;
        assert_eq!(rt;
            writer.put(&mut bank, 0, 0, payload.as_slice()),
            Ok(Put::New)
        );
        assert_eq!(rt; writer.put(&mut bank, 0, 0, b"abc"), Ok(Put::Again));
        assert_eq!(rt; writer.finish(&mut bank), Ok(verdict));
        assert_eq!(rt; bank.testing().is_some(), verdict == Verdict::Testing);
        assert!(rt; bank.active().is_none());
    }
    Ok(())
}

#[test]
fn a_block_that_comes_twice_is_one_block(rt: HostRuntime) -> Result<(), Fault> {
    let alloc = rt.alloc();
    let mut bank = MemoryBank::new(alloc, Vec::new(alloc));
    let mut writer = Writer::new(alloc, &mut bank, 0, 512, 256, TWO_BLOCKS)?;
    let one = [1; 256];
    assert_eq!(rt; writer.put(&mut bank, 0, 0, one.as_slice()), Ok(Put::New));
    assert_eq!(rt; writer.put(&mut bank, 0, 0, one.as_slice()), Ok(Put::Again));
    assert_eq!(rt; writer.finish(&mut bank), Ok(Verdict::Missing { first: 1 }));
    Ok(())
}

#[test]
fn a_block_that_was_not_written_is_missing(rt: HostRuntime) -> Result<(), Fault> {
    let alloc = rt.alloc();
    let fails = Vec::from_slice(alloc, &[2])?;
    let mut bank = MemoryBank::new(alloc, fails);
    let mut writer = Writer::new(alloc, &mut bank, 7, 512, 256, TWO_BLOCKS)?;
    let one = [1; 256];
    let two = [2; 256];
    assert_eq!(rt; writer.missing(), 2);
    assert_eq!(rt; writer.put(&mut bank, 7, 0, one.as_slice()), Ok(Put::New));
    assert_eq!(rt;
        writer.put(&mut bank, 7, 1, two.as_slice()),
        Err(PutFault::Bank)
    );
    assert_eq!(rt; writer.first_missing(), Some(1));
    assert!(rt; writer.is_missing(1));
    assert_eq!(rt; writer.put(&mut bank, 7, 1, two.as_slice()), Ok(Put::New));
    assert_eq!(rt; writer.finish(&mut bank), Ok(Verdict::Testing));
    Ok(())
}

#[test]
fn the_largest_image_has_room(rt: HostRuntime) -> Result<(), Fault> {
    let alloc = rt.alloc();
    let mut bank = MemoryBank::new(alloc, Vec::new(alloc));
    let writer = Writer::new(alloc, &mut bank, 0, 16_777_216, 256, ABC)?;
    assert_eq!(rt; writer.missing(), 65_536);
    Ok(())
}
