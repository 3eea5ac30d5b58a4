//! Each call once, with ample memory.

use super::*;
use std::test::Fail;

#[test]
fn lists_and_texts_are_kept_and_copied(rt: HostRuntime) -> Result<(), Fail> {
    let alloc = rt.alloc();
    let mut blob = Blob::new(alloc);
    assert!(rt; blob.is_empty());
    blob.push(7)?;
    blob.push(9)?;
    let copy = blob.copy(alloc)?;
    assert_eq!(rt; copy, blob);
    assert_eq!(rt; copy.get(1), Some(&9));
    assert_eq!(rt; copy.get(2), None);
    assert_eq!(rt; copy.into_vec().as_slice(), [7, 9].as_slice());
    let text = Text::from_str(alloc, "héron")?;
    let same = Some(text.copy(alloc)?).copy(alloc)?;
    assert_eq!(rt; same, Some(text));
    Ok(())
}

#[test]
fn a_list_is_made_of_a_vector_and_gone_through(rt: HostRuntime) -> Result<(), Fail> {
    let alloc = rt.alloc();
    let mut blob = Blob::from_vec([1, 2].to_vec(alloc)?);
    blob.extend_from_slice([3].as_slice())?;
    assert_eq!(rt; blob.len(), 3);
    assert_eq!(rt; blob.as_slice(), [1, 2, 3].as_slice());
    assert_eq!(rt; blob.iter().next(), Some(&1));
    Ok(())
}

#[test]
fn bytes_are_a_text_where_they_are_utf8(rt: HostRuntime) -> Result<(), Fail> {
    let alloc = rt.alloc();
    let accent = Text::from_utf8([0xC3, 0xA9].to_vec(alloc)?).ok_or("no text")?;
    assert_eq!(rt; accent.as_str(), "é");
    assert_eq!(rt; accent.len(), 2);
    assert_eq!(rt; accent.get(1), Some(&0xA9));
    assert!(rt; Text::from_utf8([0xC3].to_vec(alloc)?).is_none());
    let text = Text::from_string(String::from_str(alloc, "ab")?);
    assert!(rt; !text.is_empty());
    assert_eq!(rt; text.as_bytes(), b"ab".as_slice());
    Ok(())
}
