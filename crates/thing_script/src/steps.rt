//! A script's steps, with the topics of a thing.

ghost use Rattle.std.specs.Prelude.{◌≡◌, Some};
ghost use Rattle.std.specs.Option.{option_copied};
ghost use Rattle.plain_text.specs.Reading.{Gives};
ghost use Rattle.thing_script.specs.Topics as topics;

use agent_journal::Request;
use agent_script::Step;
use list_types::{Blob, Text};
use mqtt_packet::Qos;
use plain_text::Refusal;
use std::alloc::Global;
use thing_topics::{JobsKind, ShadowKind, jobs_topic, shadow_topic};

/// What a step is where there is this thing.
pub(crate) fn step_with(alloc: Global, thing: Option<&str>, step: Step) -> Result<Step, Refusal>
    ensures { Gives (λ step. step) result (topics.step_with (option_copied thing.entry) step) }
{
    match step {
        Step::Do(request) => Ok(Step::Do(request)),
        Step::Shadow { op, name, payload } => shadow_step(alloc, thing, op, name, payload),
        Step::Jobs { op, job, payload } => jobs_step(alloc, thing, op, job, payload),
        Step::Wait => Ok(Step::Wait),
        Step::Listen(count) => Ok(Step::Listen(count)),
    }
}

#[tactic(auto, unfolding(crate::specs::Topics::shadow_step))]
fn shadow_step(
    alloc: Global,
    thing: Option<&str>,
    op: Text,
    name: Option<Text>,
    payload: Blob,
) -> Result<Step, Refusal>
    ensures { Gives (λ step. step) result (topics.shadow_step (option_copied thing.entry) op name payload) }
{
    let thing = thing.ok_or(Refusal::Bad)?;
    let kind = shadow_kind(op.as_str()).ok_or(Refusal::Bad)?;
    match shadow_topic(thing, as_str(&name), kind) {
        Ok(topic) => publish(alloc, topic.as_str(), payload),
        Err(_) => Err(Refusal::Bad),
    }
}

#[tactic(auto, unfolding(crate::specs::Topics::jobs_step))]
fn jobs_step(
    alloc: Global,
    thing: Option<&str>,
    op: Text,
    job: Option<Text>,
    payload: Blob,
) -> Result<Step, Refusal>
    ensures { Gives (λ step. step) result (topics.jobs_step (option_copied thing.entry) op job payload) }
{
    let thing = thing.ok_or(Refusal::Bad)?;
    let kind = jobs_kind(op.as_str()).ok_or(Refusal::Bad)?;
    match jobs_topic(thing, as_str(&job), kind) {
        Ok(topic) => publish(alloc, topic.as_str(), payload),
        Err(_) => Err(Refusal::Bad),
    }
}

fn publish(alloc: Global, topic: &str, payload: Blob) -> Result<Step, Refusal>
    ensures { Gives (λ step. step) result (Some (topics.publish topic.now payload)) }
{
    Ok(Step::Do(Request::Publish {
        qos: Qos::AtLeastOnce,
        topic: Text::from_str(alloc, topic)?,
        payload,
    }))
}

fn as_str(name: &Option<Text>) -> Option<&str>
    ensures { option_copied result ≡ name.now }
{
    match name {
        Some(name) => Some(name.as_str()),
        None => None,
    }
}

fn shadow_kind(op: &str) -> Option<ShadowKind>
    ensures { result ≡ topics.shadow_kind op.now }
{
    if op == "get" {
        Some(ShadowKind::Get)
    } else if op == "update" {
        Some(ShadowKind::Update)
    } else if op == "delete" {
        Some(ShadowKind::Delete)
    } else {
        None
    }
}

fn jobs_kind(op: &str) -> Option<JobsKind>
    ensures { result ≡ topics.jobs_kind op.now }
{
    if op == "start-next" {
        Some(JobsKind::StartNext)
    } else if op == "get" {
        Some(JobsKind::Pending)
    } else if op == "describe" {
        Some(JobsKind::Describe)
    } else if op == "update" {
        Some(JobsKind::Update)
    } else {
        None
    }
}
