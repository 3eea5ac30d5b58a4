//! Each form over memory once, with ample memory: what it gives and takes, and where it fails.

ghost use Rattle.std.specs.Prelude.{Some};

use super::*;
use std::test::Fail;

#[test]
fn a_source_gives_what_fits_and_fails_by_plan(rt: HostRuntime) -> Result<(), Fail> {
    let alloc = rt.alloc();
    let mut source = MemSource::new(b"abc".to_vec(alloc)?, vec![in alloc; 1, 3]?);
    for (want, front) in [
        (Ok(2), b"ab".as_slice()),
        (Err(Fault::Failed), b"..".as_slice()),
        (Ok(1), b"c.".as_slice()),
        (Err(Fault::Failed), b"..".as_slice()),
        (Ok(0), b"..".as_slice()),
    ] {
        let mut buffer = [b'.'; 2];
        assert_eq!(rt; source.read(buffer.as_mut_slice()), want);
        assert_eq!(rt; buffer.as_slice(), front);
    }
    Ok(())
}

#[test]
fn all_of_a_source_is_read_up_to_the_limit(rt: HostRuntime) -> Result<(), Fail> {
    let alloc = rt.alloc();
    let bytes = vec![in alloc; 7u8; 5000]?;
    // A piece has at most 4096 bytes.
    for (limit, want) in [(5000, 5000), (4096, 5000), (4095, 4096), (0, 4096)] {
        let mut source = MemSource::new(bytes.clone()?, Vec::new(alloc));
        let read = read_all(alloc, &mut source, limit).ok().ok_or("no bytes")?;
        assert_eq!(rt; read.len(), want, "at {limit}");
    }
    let mut source = MemSource::new(bytes, vec![in alloc; 1]?);
    assert_eq!(rt;
        read_all(alloc, &mut source, 5000).err(),
        Some(Fault::Failed)
    );
    Ok(())
}

#[test]
fn a_sink_keeps_what_it_took_before_a_fault(rt: HostRuntime) -> Result<(), Fail> {
    let alloc = rt.alloc();
    let mut sink = MemSink::new(alloc, vec![in alloc; 1]?);
    for (bytes, want) in [
        (b"ab".as_slice(), Ok(())),
        (b"cd".as_slice(), Err(Fault::Failed)),
        (b"ef".as_slice(), Ok(())),
    ] {
        assert_eq!(rt; write_all(&mut sink, bytes), want);
    }
    assert_eq!(rt; sink.bytes(), b"abef".as_slice());
    Ok(())
}

/// A sink that takes one byte a call, and fails once, at its third.
#[derive(Drop)]
struct Slow {
    bytes: Vec<u8>,
    faults: u64,
}

impl Sink for Slow {
    ghost written = { λ s. Some s.bytes.items };

    ghost faults = { λ s. s.faults };

    fn write(&mut self, bytes: &[u8]) -> Result<usize, Fault> {
        if self.bytes.len() == 2 && self.faults == 0 {
            self.faults = 1;
            return Err(Fault::Failed);
        }
        self.bytes.push(bytes[0])?;
        Ok(1)
    }
}

#[test]
fn writing_goes_on_to_the_end_or_to_a_fault(rt: HostRuntime) -> Result<(), Fail> {
    let mut slow = Slow {
        bytes: Vec::new(rt.alloc()),
        faults: 0,
    };
    assert_eq!(rt; write_all(&mut slow, b"abc".as_slice()), Err(Fault::Failed));
    assert_eq!(rt; slow.bytes.as_slice(), b"ab".as_slice());
    assert_eq!(rt; write_all(&mut slow, b"cde".as_slice()), Ok(()));
    assert_eq!(rt; slow.bytes.as_slice(), b"abcde".as_slice());
    Ok(())
}

#[test]
fn a_page_takes_all_and_is_cleared(rt: HostRuntime) {
    let mut page = Page::new(rt.alloc());
    assert_eq!(rt; write_all(&mut page, b"ab".as_slice()), Ok(()));
    assert_eq!(rt; write_all(&mut page, b"c".as_slice()), Ok(()));
    assert_eq!(rt; page.len(), 3);
    assert_eq!(rt; page.as_slice(), b"abc".as_slice());
    page.clear();
    assert_eq!(rt; page.len(), 0);
}

#[test]
fn a_clock_goes_on_by_its_step(rt: HostRuntime) {
    let mut clock = StepClock::new(7);
    for want in [0, 7, 14] {
        assert_eq!(rt; clock.now_ms(), want);
    }
}
