//! What a mirror prints: a line for each reader, the published document, and the end.

ghost use Rattle.std.specs.Prelude.{◌≡◌, ◌++◌, flat_map, codes, IfOk, OnOk};
ghost use Rattle.mirror_run.specs.Answers as answers;
ghost use Rattle.mirror_run.specs.Answers.{mirror_text, numbered};

use agent_link::{Fault, Page};
use device_docs::Scalar;
use journal_text::{Part, write_parts};
use list_types::Text;
use shadow_mirror::Document;
use std::alloc::{AllocError, Global};

/// The text of a mirror whose readers read so often, and last these versions, and of its published document.
pub(crate) fn page_of(
    alloc: Global,
    reads: u32,
    versions: &[u64],
    document: &Document,
) -> Result<Page, AllocError>
    ensures { IfOk result (λ page. page ≡ mirror_text reads versions.now document.now) }
{
    let rows = rows_of(alloc, versions)?;
    let mut page = Page::new(alloc);
    match write_all(&mut page, reads, rows.as_slice(), document.entries()) {
        Ok(()) => Ok(page),
        Err(_) => Err(AllocError),
    }
}

/// The versions, each with its reader's number.
fn rows_of(alloc: Global, versions: &[u64]) -> Result<Vec<(u64, u64)>, AllocError>
    ensures { IfOk result (λ rows. rows.items ≡ numbered 0 versions.now) }
{
    let mut rows = Vec::with_capacity(alloc, versions.len())?;
    let mut reader: u64 = 0;
    for version in versions {
        rows.push((reader, *version))?;
        reader += 1;
    }
    Ok(rows)
}

fn write_all(
    page: &mut Page,
    reads: u32,
    rows: &[(u64, u64)],
    entries: &[(Text, Scalar)],
) -> Result<(), Fault>
    ensures { OnOk result (page.new ≡ page.old ++ flat_map (answers.reader_line reads) rows.now
        ++ flat_map answers.entry_line entries.now ++ codes "ok\n") }
{
    write_rows(page, reads, rows)?;
    write_entries(page, entries)?;
    write_parts(page, &[Part::Plain(b"ok\n")])
}

fn write_rows(page: &mut Page, reads: u32, rows: &[(u64, u64)]) -> Result<(), Fault>
    ensures { OnOk result (page.new ≡ page.old ++ flat_map (answers.reader_line reads) rows.now) }
{
    for row in rows {
        write_row(page, reads, row)?;
    }
    Ok(())
}

fn write_row(page: &mut Page, reads: u32, row: &(u64, u64)) -> Result<(), Fault>
    ensures { OnOk result (page.new ≡ page.old ++ answers.reader_line reads row.now) }
{
    let (reader, version) = *row;
    write_parts(
        page,
        &[
            Part::Plain(b"reader "),
            Part::Number(reader),
            Part::Plain(b" reads "),
            Part::Number(u64::from(reads)),
            Part::Plain(b" last "),
            Part::Number(version),
            Part::Plain(b"\n"),
        ],
    )
}

fn write_entries(page: &mut Page, entries: &[(Text, Scalar)]) -> Result<(), Fault>
    ensures { OnOk result (page.new ≡ page.old ++ flat_map answers.entry_line entries.now) }
{
    for entry in entries {
        write_entry(page, entry)?;
    }
    Ok(())
}

/// A key and its value.
fn write_entry(page: &mut Page, entry: &(Text, Scalar)) -> Result<(), Fault>
    ensures { OnOk result (page.new ≡ page.old ++ answers.entry_line entry.now) }
{
    write_parts(page, &[Part::Plain(b"key ")])?;
    write_word(page, entry.0.as_bytes())?;
    write_parts(page, &[Part::Plain(b" ")])?;
    write_scalar(page, &entry.1)?;
    write_parts(page, &[Part::Plain(b"\n")])
}

/// A text as one word.
fn write_word(page: &mut Page, text: &[u8]) -> Result<(), Fault>
    ensures { OnOk result (page.new ≡ page.old ++ answers.word_text text.now) }
{
    match text {
        [] => write_parts(page, &[Part::Plain(b"-")]),
        [..] => write_parts(page, &[Part::Escaped(text)]),
    }
}

fn write_scalar(page: &mut Page, value: &Scalar) -> Result<(), Fault>
    ensures { OnOk result (page.new ≡ page.old ++ answers.scalar_text value.now) }
{
    match value {
        Scalar::Word(text) => write_word(page, text.as_bytes()),
        Scalar::Int(number) => write_int(page, *number),
        Scalar::Flag(true) => write_parts(page, &[Part::Plain(b"true")]),
        Scalar::Flag(false) => write_parts(page, &[Part::Plain(b"false")]),
    }
}

fn write_int(page: &mut Page, number: i64) -> Result<(), Fault>
    ensures { OnOk result (page.new ≡ page.old ++ answers.int_text number) }
{
    if number < 0 {
        write_parts(
            page,
            &[Part::Plain(b"-"), Part::Number(number.unsigned_abs())],
        )
    } else {
        write_parts(page, &[Part::Number(number.unsigned_abs())])
    }
}
