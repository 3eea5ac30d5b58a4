//! A mirror, from its steps to its text.

ghost use Rattle.std.specs.Prelude.{◌≡◌, ◌≢◌, ◌<◌, ◌≤◌, length, All, IfOk};
ghost use Rattle.command_answers.specs.Answers.{sink_now};
ghost use Rattle.shadow_mirror.specs.Documents.{doc};
ghost use Rattle.mirror_run.specs.Answers.{EndsAhead, IsText, mirror_answer, published};
ghost use Rattle.mirror_run.specs.Noted.{none_noted, noted_of};

use crate::printing::page_of;
use crate::running::{Readers, last_versions, run};
use crate::steps::{MirrorStep, MirrorSteps};
use agent_link::{Page, Sink};
use command_answers::finish;
use command_words::MirrorWords;
use list_types::Text;
use shadow_mirror::{MirrorReader, MirrorWriter, mirror};
use std::alloc::{AllocError, Global};
use std::sync::Wait;
use std::thread::Threads;

/// Does the steps while the readers read, each on a thread of its own, and writes a line for each reader, the published
/// document and `ok`. Answers the exit status: 0, or 7 where memory ran out, or 8 where the sink failed, behind a
/// front of the text.
pub fn mirror_call<R: Threads + Wait + Sync, O: Sink>(
    rt: &R,
    alloc: Global,
    words: &MirrorWords,
    steps: MirrorSteps,
    out: &mut O,
) -> u8
    requires readers { (0 < words.now.readers) × (words.now.readers ≤ 8) }
    // Each reader's last version is that of the published document, or so many later ones.
    ensures ends { EndsAhead words.now.readers result (sink_now (O.written out.old) (O.faults out.old))
        (sink_now (O.written out.new) (O.faults out.new)) (mirror_answer words.now steps) }
    ensures no_words { result ≢ 1 }
    ensures no_source { result ≢ 9 }
{
    match text_of(rt, alloc, words, steps) {
        Ok(page) => finish(out, page.as_slice(), 0),
        Err(_) => 7,
    }
}

/// The printed text.
fn text_of<R: Threads + Wait + Sync>(
    rt: &R,
    alloc: Global,
    words: &MirrorWords,
    steps: MirrorSteps,
) -> Result<Page, AllocError>
    requires readers { (0 < words.now.readers) × (words.now.readers ≤ 8) }
    ensures { IfOk result (λ page. IsText words.now.readers words.now.reads (doc (published steps)) page) }
{
    let key = Text::from_str(alloc, first_key(steps.as_slice()))?;
    let (mut writer, readers) = mirror(rt, alloc, words.readers)?;
    let text = mirrored(
        rt,
        alloc,
        &mut writer,
        readers,
        steps,
        key.as_str(),
        words.reads,
    );
    writer.close(rt);
    text
}

/// The key that the readers read: the first of the first change, or the empty text where there is none.
fn first_key(steps: &[MirrorStep]) -> &str {
    for step in steps {
        if let MirrorStep::Change(change) = step {
            return match change.sets.get(0) {
                Some(set) => set.0.as_str(),
                None => "",
            };
        }
    }
    ""
}

/// Does the steps while the readers read, and tells what they read last and what is published.
fn mirrored<R: Threads + Wait + Sync>(
    rt: &R,
    alloc: Global,
    writer: &mut MirrorWriter,
    readers: Vec<MirrorReader>,
    steps: MirrorSteps,
    key: &str,
    reads: u32,
) -> Result<Page, AllocError>
    requires fresh { noted_of writer.old ≡ none_noted }
    requires readers { All (λ reader. reader.book ≡ writer.old.published.book) readers.items }
    ensures { IfOk result (λ page. IsText (length readers.items) reads (doc (published steps)) page) }
{
    let (written, all) = run(rt, writer, readers, steps.into_vec(), key, reads);
    written?;
    text_behind(rt, alloc, writer, all?, key, reads)
}

/// The text behind the run: the last reads, and what is published.
fn text_behind<R: Wait>(
    rt: &R,
    alloc: Global,
    writer: &mut MirrorWriter,
    readers: Readers,
    key: &str,
    reads: u32,
) -> Result<Page, AllocError>
    requires { All (λ reader. IfOk reader (λ r. r.book ≡ writer.old.published.book)) readers.items }
    ensures { IfOk result (λ page. IsText (length readers.items) reads (doc writer.old.published.changes) page) }
{
    let versions = last_versions(rt, alloc, writer, readers, key)?;
    let page = page_of(alloc, reads, versions.as_slice(), writer.published())?;
    Ok(page)
}
