//! The topics of answers.

ghost use Rattle.std.specs.Prelude.{◌≡◌, true, None, Some, IfOk};
ghost use Rattle.thing_topics.specs.declared.jobs.JobsKind.TheVariants as kinds;
ghost use Rattle.thing_topics.specs.Classes.{is_thing, is_job, is_stream};
ghost use Rattle.thing_topics.specs.Jobs as jobs;
ghost use Rattle.topic_filter.specs.Texts.{is_name};
ghost use Rattle.thing_service.specs.Answers.{data_topic, rejected_topic};

use crate::NoMemory;
use list_types::Text;
use std::alloc::Global;
use thing_topics::{JobsKind, StreamKind, jobs_topic, stream_topic};

/// The topic of the answer to StartNext.
#[tactic(auto, using(crate::proofs::Writable::is_next_topic, crate::proofs::Names::next_is_name))]
pub(crate) fn next_topic(alloc: Global, thing: &str) -> Result<Text, NoMemory>
    requires { is_thing thing.now ≡ true }
    ensures text { IfOk result (λ topic. topic ≡ jobs.topic_text (jobs.parts_of thing.now None kinds.StartNextAccepted)) }
    ensures name { IfOk result (λ topic. is_name topic ≡ true) }
{
    let topic = jobs_topic(thing, None, JobsKind::StartNextAccepted).unwrap();
    Text::from_str(alloc, topic.as_str())
}

/// The topic of the answer to an update of this job.
#[tactic(auto, using(crate::proofs::Writable::is_update_topic))]
pub(crate) fn update_topic(alloc: Global, thing: &str, job: &str) -> Result<Text, NoMemory>
    requires thing { is_thing thing.now ≡ true }
    requires job { is_job job.now ≡ true }
    ensures { IfOk result (λ topic. topic ≡ jobs.topic_text (jobs.parts_of thing.now (Some job.now) kinds.UpdateAccepted)) }
{
    let topic = jobs_topic(thing, Some(job), JobsKind::UpdateAccepted).unwrap();
    Text::from_str(alloc, topic.as_str())
}

/// The topic of the blocks of this stream.
#[tactic(auto, using(crate::proofs::Writable::is_stream_topic))]
pub(crate) fn data_topic(alloc: Global, thing: &str, stream: &str) -> Result<Text, NoMemory>
    requires thing { is_thing thing.now ≡ true }
    requires stream { is_stream stream.now ≡ true }
    ensures { IfOk result (λ topic. topic ≡ data_topic thing.now stream.now) }
{
    let topic = stream_topic(thing, stream, StreamKind::Data).unwrap();
    Text::from_str(alloc, topic.as_str())
}

/// The topic of a request for blocks that is rejected.
#[tactic(auto, using(crate::proofs::Writable::is_stream_topic))]
pub(crate) fn rejected_topic(alloc: Global, thing: &str, stream: &str) -> Result<Text, NoMemory>
    requires thing { is_thing thing.now ≡ true }
    requires stream { is_stream stream.now ≡ true }
    ensures { IfOk result (λ topic. topic ≡ rejected_topic thing.now stream.now) }
{
    let topic = stream_topic(thing, stream, StreamKind::Rejected).unwrap();
    Text::from_str(alloc, topic.as_str())
}
