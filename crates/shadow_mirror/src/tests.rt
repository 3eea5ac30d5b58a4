//! Each call once, over changes that were worked out by hand.

ghost use Rattle.std.specs.Prelude.{◌≡◌};

use super::*;
use device_docs::{Change, Scalar, read_change};
use std::alloc::{AllocError, Global};
use std::process::Abort;
use std::sync::Wait;
use std::test::Fail;

fn change(alloc: Global, text: &[u8]) -> Result<Change, Fail> {
    read_change(alloc, text).map_err(|_| "no change".into())
}

fn is_word(value: &Option<Scalar>, word: &str) -> bool {
    match value {
        Some(Scalar::Word(text)) => text.as_str() == word,
        _ => false,
    }
}

#[test]
fn a_reader_that_learnt_nothing_sees_what_was_published(rt: HostRuntime) -> Result<(), Fail> {
    let alloc = rt.alloc();
    let first = change(alloc, br#"{"version":1,"state":{"desired":{"a":"x"}}}"#)?;
    let (mut writer, mut readers) = mirror(&rt, alloc, 1)?;
    let noted = writer.note(first).is_ok();
    let published = writer.publish(&rt).is_ok();
    let found = match readers.pop() {
        Some(mut reader) => reader.read(&rt, "a"),
        None => Err(AllocError),
    };
    writer.close(&rt);
    assert!(rt; noted && published);
    let (version, value) = found?;
    assert_eq!(rt; version, 1);
    assert!(rt; is_word(&value, "x"));
    Ok(())
}

/// Notes and publishes a change.
fn publish_one<R: Wait>(rt: &R, writer: &mut MirrorWriter, change: Change) -> bool
    ensures { writer.new.published.book ≡ writer.old.published.book }
{
    match writer.note(change) {
        Ok(()) => writer.publish(rt).is_ok(),
        Err(_) => false,
    }
}

/// What a reader finds that is told of all that was published.
fn told_and_read<R: Wait>(
    rt: &R,
    writer: &mut MirrorWriter,
    reader: &mut MirrorReader,
    key: &str,
) -> Result<(u64, Option<Scalar>), AllocError>
    requires { reader.old.book ≡ writer.old.published.book }
    ensures { (reader.new.book ≡ reader.old.book) × (writer.new ≡ writer.old) }
{
    let told = writer.tell();
    reader.learn(told);
    reader.read(rt, key)
}

#[test]
fn keys_are_set_and_removed_and_an_old_version_is_passed_over(rt: HostRuntime) -> Result<(), Fail> {
    let alloc = rt.alloc();
    let first = change(alloc, br#"{"version":1,"state":{"desired":{"a":1}}}"#)?;
    let second = change(
        alloc,
        br#"{"version":2,"state":{"desired":{"a":null,"b":"x"}}}"#,
    )?;
    let old = change(alloc, br#"{"version":1,"state":{"desired":{"b":true}}}"#)?;
    let (mut writer, mut readers) = mirror(&rt, alloc, 1)?;
    let published = publish_one(&rt, &mut writer, first);
    let again = publish_one(&rt, &mut writer, second);
    let passed = publish_one(&rt, &mut writer, old);
    let keys = writer.published().entries().len();
    let version = writer.published().version();
    let mut removed = Err(AllocError);
    let mut set = Err(AllocError);
    if let Some(mut reader) = readers.pop() {
        removed = told_and_read(&rt, &mut writer, &mut reader, "a");
        set = told_and_read(&rt, &mut writer, &mut reader, "b");
    }
    writer.close(&rt);
    assert!(rt; published && again && passed);
    assert_eq!(rt; (version, keys), (2, 1));
    assert_eq!(rt; removed?, (2, None));
    let (version, value) = set?;
    assert_eq!(rt; version, 2);
    assert!(rt; is_word(&value, "x"));
    Ok(())
}
