//! The run of a mirror: its caller writes while each reader reads on a thread of its own, and then reads once more.

ghost use Rattle.std.specs.Prelude.{◌≡◌, ◌<◌, ◌≤◌, ℕ, All, fold, slice_index_or, vec_len};
ghost use Rattle.std.specs.Prelude.{IfSome, IfOk, OnOk};
ghost use Rattle.shadow_mirror.specs.Documents.{doc};
ghost use Rattle.mirror_run.specs.Noted.{after, noted_of};

use crate::steps::MirrorStep;
use shadow_mirror::{MirrorReader, MirrorWriter};
use std::alloc::{AllocError, Global};
use std::sync::Wait;
use std::thread;
use std::thread::Threads;

/// The readers that have read, where memory didn't run out.
pub(crate) type Readers = Vec<Result<MirrorReader, AllocError>>;

/// The caller does the steps while the readers read. What came of the steps, and of the reading.
pub(crate) fn run<R: Threads + Wait + Sync>(
    rt: &R,
    writer: &mut MirrorWriter,
    readers: Vec<MirrorReader>,
    steps: Vec<MirrorStep>,
    key: &str,
    reads: u32,
) -> (Result<(), AllocError>, Result<Readers, AllocError>)
    ensures book { writer.new.published.book ≡ writer.old.published.book }
    ensures steps { OnOk result.0 (noted_of writer.new ≡ fold after (noted_of writer.old) steps.items) }
    ensures count { IfOk result.1 (λ all. vec_len all ≡ vec_len readers) }
    ensures readers { IfOk result.1 (λ all. (i : ℕ) (d : _) (e : _) → i < vec_len readers →
        IfOk (slice_index_or all.items i d) (λ reader. reader.book ≡ (slice_index_or readers.items i e).book)) }
{
    let mut steps = Some(steps);
    let mut readers = Some(readers);
    thread::join_mut(
        rt,
        &mut || write_steps(rt, writer, steps.take()),
        &mut || read_all(rt, readers.take(), key, reads),
    )
}

/// Notes and publishes, step by step.
fn write_steps<R: Wait>(
    rt: &R,
    writer: &mut MirrorWriter,
    steps: Option<Vec<MirrorStep>>,
) -> Result<(), AllocError>
    ensures book { writer.new.published.book ≡ writer.old.published.book }
    ensures steps { OnOk result (IfSome steps (λ all.
        noted_of writer.new ≡ fold after (noted_of writer.old) all.items)) }
{
    match steps {
        Some(steps) => write_each(rt, writer, steps),
        None => Ok(()),
    }
}

fn write_each<R: Wait>(
    rt: &R,
    writer: &mut MirrorWriter,
    steps: Vec<MirrorStep>,
) -> Result<(), AllocError>
    ensures book { writer.new.published.book ≡ writer.old.published.book }
    ensures steps { OnOk result (noted_of writer.new ≡ fold after (noted_of writer.old) steps.items) }
{
    for step in steps {
        write_step(rt, writer, step)?;
    }
    Ok(())
}

fn write_step<R: Wait>(
    rt: &R,
    writer: &mut MirrorWriter,
    step: MirrorStep,
) -> Result<(), AllocError>
    ensures book { writer.new.published.book ≡ writer.old.published.book }
    ensures step { OnOk result (noted_of writer.new ≡ after (noted_of writer.old) step) }
{
    match step {
        MirrorStep::Change(change) => match writer.note(change) {
            Ok(()) => Ok(()),
            Err((_, e)) => Err(e),
        },
        MirrorStep::Publish => writer.publish(rt),
    }
}

/// Each reader reads on a thread of its own. All are joined.
fn read_all<R: Threads + Wait + Sync>(
    rt: &R,
    readers: Option<Vec<MirrorReader>>,
    key: &str,
    reads: u32,
) -> Result<Readers, AllocError>
    ensures count { IfOk result (λ all. IfSome readers (λ before. vec_len all ≡ vec_len before)) }
    ensures readers { IfOk result (λ all. IfSome readers (λ before. (i : ℕ) (d : _) (e : _) → i < vec_len before →
        IfOk (slice_index_or all.items i d) (λ reader.
        reader.book ≡ (slice_index_or before.items i e).book))) }
{
    match readers {
        Some(readers) => thread::map_vec(rt, readers, &|reader| read_often(rt, reader, key, reads)),
        None => Err(AllocError),
    }
}

fn read_often<R: Wait>(
    rt: &R,
    reader: MirrorReader,
    key: &str,
    reads: u32,
) -> Result<MirrorReader, AllocError>
    ensures { IfOk result (λ then. then.book ≡ reader.book) }
{
    let mut reader = reader;
    for _ in 0..reads {
        reader.read(rt, key)?;
    }
    Ok(reader)
}

/// Each reader is told of all that was published, and reads once more. The versions that they read.
pub(crate) fn last_versions<R: Wait>(
    rt: &R,
    alloc: Global,
    writer: &mut MirrorWriter,
    readers: Readers,
    key: &str,
) -> Result<Vec<u64>, AllocError>
    requires { All (λ reader. IfOk reader (λ r. r.book ≡ writer.old.published.book)) readers.items }
    ensures kept { writer.new ≡ writer.old }
    ensures count { IfOk result (λ versions. vec_len versions ≡ vec_len readers) }
    ensures late { IfOk result (λ versions.
        All (λ version. (doc writer.old.published.changes).version ≤ version) versions.items) }
{
    let mut versions = Vec::with_capacity(alloc, readers.len())?;
    for reader in readers {
        versions.push(last_version(rt, writer, reader?, key)?)?;
    }
    Ok(versions)
}

#[tactic(auto, using(crate::proofs::Growing::late))]
fn last_version<R: Wait>(
    rt: &R,
    writer: &mut MirrorWriter,
    reader: MirrorReader,
    key: &str,
) -> Result<u64, AllocError>
    requires { reader.book ≡ writer.old.published.book }
    ensures kept { writer.new ≡ writer.old }
    ensures late { IfOk result (λ version. (doc writer.old.published.changes).version ≤ version) }
{
    let mut reader = reader;
    reader.learn(writer.tell());
    let (version, _) = reader.read(rt, key)?;
    Ok(version)
}
