//! Messages on the topics of a thing's shadows and jobs.

ghost use Rattle.std.specs.Prelude.{◌≡◌, ◌<◌, ◌^◌, count_by};
ghost use Rattle.thing_script.specs.Kinds as kinds;
ghost use Rattle.thing_script.specs.Services.{is_of};

use agent_journal::{Effect, Entry};
use thing_topics::{match_jobs, match_shadow};

/// How many messages were on topics of each kind.
#[derive(Clone, Copy, Debug, PartialEq, Eq)]
pub struct Kinds {
    /// On topics of the thing's shadows.
    pub shadow: u128,
    /// On topics of the thing's jobs.
    pub jobs: u128,
}

/// A service of a thing.
#[derive(Clone, Copy)]
pub(crate) enum Service {
    Shadow,
    Jobs,
}

/// How many of the messages that were passed to a task have topics of this thing's shadows, and of
/// its jobs.
#[tactic(auto, using(crate::proofs::Counts::one_more, crate::proofs::Counts::all_counted))]
pub fn kinds_of(thing: &str, journal: &[Entry], task: u32) -> Kinds
    ensures shadow { result.shadow ≡ kinds.count_passed task (kinds.is_shadow_of thing.now) journal.now }
    ensures jobs { result.jobs ≡ kinds.count_passed task (kinds.is_jobs_of thing.now) journal.now }
{
    let mut shadow: u128 = 0;
    let mut jobs: u128 = 0;
    for entry in journal {
        let here = kinds_in(thing, entry.effects.as_slice(), task);
        shadow += here.shadow;
        jobs += here.jobs;
    }
    Kinds { shadow, jobs }
}

/// The same of one entry's effects.
fn kinds_in(thing: &str, effects: &[Effect], task: u32) -> Kinds
    ensures shadow { result.shadow ≡ count_by (kinds.passes task (kinds.is_shadow_of thing.now)) effects.now }
    ensures jobs { result.jobs ≡ count_by (kinds.passes task (kinds.is_jobs_of thing.now)) effects.now }
    ensures small { (result.shadow < 2 ^ 64) × (result.jobs < 2 ^ 64) }
{
    let mut shadow: u128 = 0;
    let mut jobs: u128 = 0;
    for effect in effects {
        if passes(Service::Shadow, thing, effect, task) {
            shadow += 1;
        }
        if passes(Service::Jobs, thing, effect, task) {
            jobs += 1;
        }
    }
    Kinds { shadow, jobs }
}

/// Whether a message on a topic of this service was passed to the task.
fn passes(service: Service, thing: &str, effect: &Effect, task: u32) -> bool
    ensures { result ≡ kinds.passes task (is_of service thing.now) effect.now }
{
    match effect {
        Effect::Pass { task: to, message } => task == *to
            && is_of(service, thing, message.topic.as_str()),
        _ => false,
    }
}

/// Whether a topic is one of this thing's, of this service.
#[tactic(auto, unfolding(crate::specs::Kinds::is_shadow_of, crate::specs::Kinds::is_jobs_of))]
fn is_of(service: Service, thing: &str, topic: &str) -> bool
    ensures { result ≡ is_of service thing.now topic.now }
{
    match service {
        Service::Shadow => match match_shadow(topic) {
            Ok(found) => found.thing == thing,
            Err(_) => false,
        },
        Service::Jobs => match match_jobs(topic) {
            Ok(found) => found.thing == thing,
            Err(_) => false,
        },
    }
}
