//! What a message asks, by its topic.

ghost use Rattle.std.specs.Prelude.{◌≡◌, true, IfSome};
ghost use Rattle.thing_topics.specs.Classes.{is_job, is_stream};
ghost use Rattle.std.specs.Option.{option_map, option_copied};
ghost use Rattle.thing_service.specs.Asking as asking;

use thing_topics::{JobsKind, StreamKind, match_jobs, match_stream};

/// Whether the topic asks for the thing's next job.
pub(crate) fn asks_next(thing: &str, topic: &str) -> bool
    ensures { result ≡ asking.asks_next thing.now topic.now }
{
    match match_jobs(topic) {
        Ok(found) => found.thing == thing && is_start_next(found.kind),
        Err(_) => false,
    }
}

fn is_start_next(kind: JobsKind) -> bool
    ensures { result ≡ asking.is_start_next kind }
{
    matches!(kind, JobsKind::StartNext)
}

/// The job of the thing that the topic updates.
#[tactic(auto, using(crate::proofs::Writable::job_class))]
pub(crate) fn updated<'a>(thing: &str, topic: &'a str) -> Option<&'a str>
    ensures job { option_copied result ≡ asking.updated thing.now topic.now }
    ensures class { IfSome result (λ name. is_job name.now ≡ true) }
{
    match match_jobs(topic) {
        Ok(found) => {
            if found.thing == thing && is_update(found.kind) {
                found.job
            } else {
                None
            }
        }
        Err(_) => None,
    }
}

fn is_update(kind: JobsKind) -> bool
    ensures { result ≡ asking.is_update kind }
{
    matches!(kind, JobsKind::Update)
}

/// The stream of the thing whose blocks the topic asks for.
#[tactic(auto, using(crate::proofs::Writable::stream_class))]
pub(crate) fn stream_asked<'a>(thing: &str, topic: &'a str) -> Option<&'a str>
    ensures stream { option_copied result ≡ asking.stream_asked thing.now topic.now }
    ensures class { IfSome result (λ stream. is_stream stream.now ≡ true) }
{
    match match_stream(topic) {
        Ok(found) => {
            if found.thing == thing && is_get(found.kind) {
                Some(found.stream)
            } else {
                None
            }
        }
        Err(_) => None,
    }
}

fn is_get(kind: StreamKind) -> bool
    ensures { result ≡ asking.is_get kind }
{
    matches!(kind, StreamKind::Get)
}
