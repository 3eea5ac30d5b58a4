//! The lines of a script: a task, and what it is asked.

ghost use Rattle.std.specs.Prelude.{◌≡◌, ◌≤◌};
ghost use Rattle.std.specs.Option.{option_map};
ghost use Rattle.plain_text.specs.Reading.{Gives};
ghost use Rattle.agent_script.specs.Steps as steps;

use crate::requests::{publish_of, subscribe_of, unsubscribe_of};
use crate::script::{Line, Step};
use agent_journal::Request;
use list_types::{Blob, Text};
use plain_text::{Refusal, last_at, number_in, payload_of, word_at};
use std::alloc::Global;

/// The longest payload of a request, in bytes.
const PAYLOAD_LIMIT: usize = 131_072;

/// The greatest number of messages that a line may ask to listen for.
const LISTEN_LIMIT: u64 = 1_000_000;

/// A line of a script of so many tasks.
#[tactic(auto, unfolding(crate::specs::Steps::line_of))]
pub(crate) fn line_of(alloc: Global, tasks: u32, number: u64, line: &[u8]) -> Result<Line, Refusal>
    requires { tasks ≤ 8 }
    ensures { Gives (λ line. line) result (steps.line_of tasks number line.now) }
{
    let (word, rest) = word_at(line).ok_or(Refusal::Bad)?;
    let task = task_of(tasks, word).ok_or(Refusal::Bad)?;
    let step = step_of(alloc, rest)?;
    Ok(Line { number, task, step })
}

/// A task below `tasks`, as one digit.
fn task_of(tasks: u32, word: &[u8]) -> Option<u32>
    requires { tasks ≤ 8 }
    ensures { result ≡ steps.task_of tasks word.now }
{
    match word {
        [] => None,
        [digit] => {
            if b'0' <= *digit && u32::from(*digit) < 48 + tasks {
                Some(u32::from(*digit) - 48)
            } else {
                None
            }
        }
        [_, _, ..] => None,
    }
}

/// What stands behind the task.
#[tactic(auto, unfolding(crate::specs::Steps::step_of))]
fn step_of(alloc: Global, line: &[u8]) -> Result<Step, Refusal>
    ensures { Gives (λ step. step) result (steps.step_of line.now) }
{
    if let Some(word) = last_at(line) {
        return word_of(word).ok_or(Refusal::Bad);
    }
    let (verb, rest) = word_at(line).ok_or(Refusal::Bad)?;
    words_of(alloc, verb, rest)
}

/// A step of one word.
#[tactic(auto, unfolding(crate::specs::Steps::word_of))]
fn word_of(word: &[u8]) -> Option<Step>
    ensures { result ≡ steps.word_of word.now }
{
    if word == b"ping".as_slice() {
        Some(Step::Do(Request::Ping))
    } else if word == b"disconnect".as_slice() {
        Some(Step::Do(Request::Disconnect))
    } else if word == b"terminate".as_slice() {
        Some(Step::Do(Request::Terminate))
    } else if word == b"wait".as_slice() {
        Some(Step::Wait)
    } else {
        None
    }
}

/// A step of several words, of which `verb` is the first.
#[tactic(auto, unfolding(crate::specs::Steps::words_of))]
fn words_of(alloc: Global, verb: &[u8], line: &[u8]) -> Result<Step, Refusal>
    ensures { Gives (λ step. step) result (steps.words_of verb.now line.now) }
{
    if verb == b"publish".as_slice() {
        Ok(Step::Do(publish_of(alloc, line)?))
    } else if verb == b"subscribe".as_slice() {
        Ok(Step::Do(subscribe_of(alloc, line)?))
    } else if verb == b"unsubscribe".as_slice() {
        Ok(Step::Do(unsubscribe_of(alloc, line)?))
    } else if verb == b"listen".as_slice() {
        listen_of(line)
    } else if verb == b"shadow".as_slice() {
        shadow_of(alloc, line)
    } else if verb == b"jobs".as_slice() {
        jobs_of(alloc, line)
    } else {
        Err(Refusal::Bad)
    }
}

/// `listen` N.
#[tactic(auto, unfolding(crate::specs::Steps::listen_of))]
fn listen_of(line: &[u8]) -> Result<Step, Refusal>
    ensures { Gives (λ step. step) result (steps.listen_of line.now) }
{
    let word = last_at(line).ok_or(Refusal::Bad)?;
    let count = number_in(1, LISTEN_LIMIT, word).ok_or(Refusal::Bad)?;
    Ok(Step::Listen(count as u32))
}

/// `shadow` OP NAME PAYLOAD.
#[tactic(auto, unfolding(crate::specs::Steps::shadow_of))]
fn shadow_of(alloc: Global, line: &[u8]) -> Result<Step, Refusal>
    ensures { Gives (λ step. step) result (steps.shadow_of line.now) }
{
    let (op, rest) = word_at(line).ok_or(Refusal::Bad)?;
    let op = shadow_op(alloc, op)?;
    let (name, rest) = word_at(rest).ok_or(Refusal::Bad)?;
    let name = shadow_name(alloc, name)?;
    let word = last_at(rest).ok_or(Refusal::Bad)?;
    let payload = short_payload(alloc, word)?;
    Ok(Step::Shadow { op, name, payload })
}

fn shadow_op(alloc: Global, word: &[u8]) -> Result<Text, Refusal>
    ensures { Gives (λ op. op) result (steps.shadow_op word.now) }
{
    if word == b"get".as_slice() {
        Ok(Text::from_str(alloc, "get")?)
    } else if word == b"update".as_slice() {
        Ok(Text::from_str(alloc, "update")?)
    } else if word == b"delete".as_slice() {
        Ok(Text::from_str(alloc, "delete")?)
    } else {
        Err(Refusal::Bad)
    }
}

/// `-` is the unnamed shadow.
fn shadow_name(alloc: Global, word: &[u8]) -> Result<Option<Text>, Refusal>
    ensures { Gives (λ name. name) result (steps.shadow_name word.now) }
{
    if word == b"-".as_slice() {
        return Ok(None);
    }
    Ok(Some(named(alloc, word)?))
}

/// `jobs` OP PAYLOAD, or `jobs` OP J PAYLOAD.
#[tactic(auto, unfolding(crate::specs::Steps::jobs_of))]
fn jobs_of(alloc: Global, line: &[u8]) -> Result<Step, Refusal>
    ensures { Gives (λ step. step) result (steps.jobs_of line.now) }
{
    let (op, rest) = word_at(line).ok_or(Refusal::Bad)?;
    job_step(alloc, op, rest)
}

#[tactic(auto, unfolding(crate::specs::Steps::job_step))]
fn job_step(alloc: Global, op: &[u8], line: &[u8]) -> Result<Step, Refusal>
    ensures { Gives (λ step. step) result (steps.job_step op.now line.now) }
{
    if op == b"start-next".as_slice() {
        all_jobs_of(alloc, "start-next", line)
    } else if op == b"get".as_slice() {
        all_jobs_of(alloc, "get", line)
    } else if op == b"describe".as_slice() {
        one_job_of(alloc, "describe", line)
    } else if op == b"update".as_slice() {
        one_job_of(alloc, "update", line)
    } else {
        Err(Refusal::Bad)
    }
}

#[tactic(auto, unfolding(crate::specs::Steps::all_jobs_of))]
fn all_jobs_of(alloc: Global, op: &str, line: &[u8]) -> Result<Step, Refusal>
    ensures { Gives (λ step. step) result (steps.all_jobs_of op.now line.now) }
{
    let word = last_at(line).ok_or(Refusal::Bad)?;
    let payload = short_payload(alloc, word)?;
    Ok(Step::Jobs {
        op: Text::from_str(alloc, op)?,
        job: None,
        payload,
    })
}

#[tactic(auto, unfolding(crate::specs::Steps::one_job_of))]
fn one_job_of(alloc: Global, op: &str, line: &[u8]) -> Result<Step, Refusal>
    ensures { Gives (λ step. step) result (steps.one_job_of op.now line.now) }
{
    let (name, rest) = word_at(line).ok_or(Refusal::Bad)?;
    let job = named(alloc, name)?;
    let word = last_at(rest).ok_or(Refusal::Bad)?;
    let payload = short_payload(alloc, word)?;
    Ok(Step::Jobs {
        op: Text::from_str(alloc, op)?,
        job: Some(job),
        payload,
    })
}

/// A word of UTF-8 that isn't empty, as it stands.
#[tactic(auto, using(mqtt_packet::proofs::Strings::not_utf8, mqtt_packet::proofs::Strings::in_utf8))]
fn named(alloc: Global, word: &[u8]) -> Result<Text, Refusal>
    ensures { Gives (λ name. name) result (steps.named word.now) }
{
    if word.is_empty() {
        return Err(Refusal::Bad);
    }
    match str::from_utf8(word) {
        Ok(name) => Ok(Text::from_str(alloc, name)?),
        Err(_) => Err(Refusal::Bad),
    }
}

fn short_payload(alloc: Global, word: &[u8]) -> Result<Blob, Refusal>
    ensures { Gives (λ payload. payload) result (steps.short_payload word.now) }
{
    let payload = payload_of(alloc, word)?;
    if payload.len() > PAYLOAD_LIMIT {
        return Err(Refusal::Bad);
    }
    Ok(payload)
}
