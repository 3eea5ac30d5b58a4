//! Job documents: which job is to be executed.

ghost use Rattle.std.specs.Prelude.{◌≡◌, true, Some, IfOk, IfSome, OnOk, IsTrue};
ghost use Rattle.serde_json.specs.Find.{get};
ghost use Rattle.serde_json.specs.View.{view, items_view};
ghost use Rattle.device_docs.specs.declared.keys.Key.TheVariants as k;
ghost use Rattle.device_docs.specs.Answers.{Gives};
ghost use Rattle.device_docs.specs.Jobs as jobs;
ghost use Rattle.device_docs.specs.JobSteps as steps;
ghost use Rattle.device_docs.specs.Keys.{key_text};

use crate::classes::{digest_of, has_mqtt, is_from, is_job, is_path, is_stream};
use crate::faults::DocFault;
use crate::keys::Key;
use crate::members::{document, list_at, natural_at, object_at, text_at, whole_at};
use list_types::Text;
use serde_json::Value;
use std::alloc::Global;

/// The most bytes that a file may have.
const MOST_SIZE: u32 = 16_777_216;

/// A job that fetches one file.
#[derive(Debug, Drop, PartialEq, Eq)]
pub struct Job {
    /// The job's name, 1 to 64 of the ASCII letters and digits, `_` and `-`.
    pub job: Text,
    /// The version of its execution.
    pub version: u64,
    /// The stream that has the file, 1 to 128 of the same.
    pub stream: Text,
    /// Where the file goes, 1 to 1,024 bytes.
    pub path: Text,
    /// The file's size, 1 to 16,777,216 bytes.
    pub size: u32,
    /// The file's number in the stream.
    pub file: u32,
    /// The file's SHA-256 (FIPS 180-4).
    pub digest: [u8; 32],
}

impl Job {
    /// Whether a document can name the job: its names, its path and its numbers are ones that are allowed.
    pub fn is_nameable(&self) -> bool
        ensures { result ≡ jobs.is_nameable self.now }
    {
        is_job(self.job.as_str())
            && is_stream(self.stream.as_str())
            && is_path(self.path.as_str())
            && is_from(1, MOST_SIZE, Some(self.size as u64))
            && is_from(0, u32::MAX, Some(self.file as u64))
    }
}

/// What an execution must have, with its one file.
#[derive(Clone, Copy)]
pub(crate) struct Parts<'a> {
    job: &'a str,
    version: u64,
    protocols: &'a Vec<Value>,
    stream: &'a str,
    file: &'a Value,
}

/// What the file must have. A number is `None` where it is negative.
#[derive(Clone, Copy)]
pub(crate) struct FilePart<'a> {
    path: &'a str,
    size: Option<u64>,
    id: Option<u64>,
    sha256: &'a str,
}

/// Reads the answer of the jobs service to a request for the next job: the job to be executed, or `None` where there is
/// no `execution` or one without members. Other keys are passed over; of several members of one key the last counts.
///
/// # Errors
/// The first [`DocFault`] that applies. Arrays and objects that nest more than 127 deep are `NotJson`.
pub fn read_execution(alloc: Global, text: &[u8]) -> Result<Option<Job>, DocFault>
    ensures said { Gives (λ job. job) result (jobs.said text.now) }
    ensures nameable { IfOk result (λ job. IfSome job (λ job. IsTrue (jobs.is_nameable job))) }
{
    let document = document(alloc, text)?;
    read_in(alloc, &document)
}

#[tactic(auto, unfolding(crate::specs::JobSteps::read_in))]
fn read_in(alloc: Global, document: &Value) -> Result<Option<Job>, DocFault>
    ensures said { Gives (λ job. job) result (steps.read_in (view document.now)) }
    ensures nameable { IfOk result (λ job. IfSome job (λ job. IsTrue (jobs.is_nameable job))) }
{
    if is_idle(document) {
        return Ok(None);
    }
    Ok(Some(job_of(alloc, document)?))
}

/// Whether there is no execution, or one without members.
fn is_idle(document: &Value) -> bool
    ensures { result ≡ jobs.is_idle (get (key_text k.Execution) (view document.now)) }
{
    match document.get(Key::Execution.name()) {
        Some(execution) => match execution.as_object() {
            Some(members) => members.is_empty(),
            None => false,
        },
        None => true,
    }
}

#[tactic(auto, unfolding(crate::specs::JobSteps::job_of))]
fn job_of(alloc: Global, document: &Value) -> Result<Job, DocFault>
    ensures said { Gives (λ job. job) result (steps.job_of (view document.now)) }
    ensures nameable { IfOk result (λ job. IsTrue (jobs.is_nameable job)) }
{
    let parts = parts_in(document)?;
    let file = file_in(parts.file)?;
    job_by(alloc, &parts, &file)
}

#[tactic(auto, unfolding(crate::specs::JobSteps::heads_in))]
fn parts_in(document: &Value) -> Result<Parts<'_>, DocFault>
    ensures { Gives steps.found_heads result (steps.heads_in (view document.now)) }
{
    let execution = object_at(document, Key::Execution)?;
    let job = text_at(execution, Key::JobId)?;
    let version = natural_at(execution, Key::VersionNumber)?;
    let job_document = object_at(execution, Key::JobDocument)?;
    let ota = object_at(job_document, Key::AfrOta)?;
    let protocols = list_at(ota, Key::Protocols)?;
    let stream = text_at(ota, Key::StreamName)?;
    let files = list_at(ota, Key::Files)?;
    let file = one_file(files)?;
    Ok(Parts {
        job,
        version,
        protocols,
        stream,
        file,
    })
}

#[tactic(auto, using(crate::proofs::Views::not_one), unfolding(crate::specs::JobSteps::one_file))]
fn one_file(files: &Vec<Value>) -> Result<&Value, DocFault>
    ensures { Gives (λ file. view file.now) result (steps.one_file (items_view files.now.items)) }
{
    if files.len() == 1 {
        Ok(&files[0])
    } else {
        Err(DocFault::Files { count: files.len() })
    }
}

#[tactic(auto, unfolding(crate::specs::JobSteps::tails_in))]
fn file_in(file: &Value) -> Result<FilePart<'_>, DocFault>
    ensures { Gives steps.found_tails result (steps.tails_in (view file.now)) }
{
    let path = text_at(file, Key::FilePath)?;
    let size = whole_at(file, Key::FileSize)?;
    let id = whole_at(file, Key::FileId)?;
    let sha256 = text_at(file, Key::Sha256)?;
    Ok(FilePart {
        path,
        size,
        id,
        sha256,
    })
}

/// The job of these parts, where each is what it must be.
#[tactic(auto, unfolding(crate::specs::JobSteps::job_by))]
fn job_by(alloc: Global, parts: &Parts<'_>, file: &FilePart<'_>) -> Result<Job, DocFault>
    ensures said { Gives (λ job. job) result (steps.job_by (steps.found_heads parts.now) (steps.found_tails file.now)) }
    ensures nameable { IfOk result (λ job. IsTrue (jobs.is_nameable job)) }
{
    tested(Key::JobId, is_job(parts.job))?;
    tested(Key::Protocols, has_mqtt(parts.protocols))?;
    tested(Key::StreamName, is_stream(parts.stream))?;
    tested(Key::FilePath, is_path(file.path))?;
    let size = number_in(Key::FileSize, 1, MOST_SIZE, file.size)?;
    let number = number_in(Key::FileId, 0, u32::MAX, file.id)?;
    let digest = digest_of(file.sha256).ok_or(DocFault::Digest)?;
    Ok(Job {
        job: Text::from_str(alloc, parts.job)?,
        version: parts.version,
        stream: Text::from_str(alloc, parts.stream)?,
        path: Text::from_str(alloc, file.path)?,
        size,
        file: number,
        digest,
    })
}

fn tested(key: Key, test: bool) -> Result<(), DocFault>
    ensures tested { Gives (λ x. x) result (steps.tested key test) }
    ensures passed { OnOk result (test ≡ true) }
{
    if test {
        Ok(())
    } else {
        Err(DocFault::Range { key })
    }
}

fn number_in(key: Key, least: u32, most: u32, number: Option<u64>) -> Result<u32, DocFault>
    ensures number { Gives (λ n. n) result (steps.number_in key least most number) }
    ensures within { IfOk result (λ n. jobs.is_from least most (Some n) ≡ true) }
{
    match number {
        Some(number) => {
            if (least as u64) <= number && number <= most as u64 {
                Ok(number as u32)
            } else {
                Err(DocFault::Range { key })
            }
        }
        None => Err(DocFault::Range { key }),
    }
}
