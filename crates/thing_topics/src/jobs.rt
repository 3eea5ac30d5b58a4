//! Topics of jobs.

ghost use Rattle.std.specs.Prelude.{◌≡◌, ◌≤◌, length, IfOk, IfErr, Ok, IfNone, IfSome, IsTrue};
ghost use Rattle.std.specs.Option.{option_copied, option_map};
ghost use Rattle.arrayvec.specs.ArrayString.{array_string_len};
ghost use Rattle.thing_topics.specs.Faults.{IsJobsFault};
ghost use Rattle.thing_topics.specs.Readings.{Gives, fault_in};
ghost use Rattle.thing_topics.specs.Jobs as jobs;

use crate::classes::{is_job, is_thing};
use crate::cuts::first_level;
use crate::faults::{NameFault, TopicFault};
use crate::fronts::{front, front_of};
use crate::kinds::{Kind, kind_of};
use crate::topic_text::TopicText;

/// What a topic of jobs is about. Those from `Describe` on have the level of a job in front.
#[derive(Clone, Copy, Debug, PartialEq, Eq)]
pub enum JobsKind {
    /// `notify`
    Notify,
    /// `notify-next`
    NotifyNext,
    /// `get`
    Pending,
    /// `get/accepted`
    PendingAccepted,
    /// `get/rejected`
    PendingRejected,
    /// `start-next`
    StartNext,
    /// `start-next/accepted`
    StartNextAccepted,
    /// `start-next/rejected`
    StartNextRejected,
    /// `get`, behind a job or `$next`
    Describe,
    /// `get/accepted`, behind a job or `$next`
    DescribeAccepted,
    /// `get/rejected`, behind a job or `$next`
    DescribeRejected,
    /// `update`, behind a job
    Update,
    /// `update/accepted`, behind a job
    UpdateAccepted,
    /// `update/rejected`, behind a job
    UpdateRejected,
}

impl Kind for JobsKind {
    ghost use Rattle.thing_topics.specs.Jobs.{word};

    ghost written = { word };

    fn word(self) -> &'static str {
        match self {
            JobsKind::Notify => "notify",
            JobsKind::NotifyNext => "notify-next",
            JobsKind::Pending => "get",
            JobsKind::PendingAccepted => "get/accepted",
            JobsKind::PendingRejected => "get/rejected",
            JobsKind::StartNext => "start-next",
            JobsKind::StartNextAccepted => "start-next/accepted",
            JobsKind::StartNextRejected => "start-next/rejected",
            JobsKind::Describe => "get",
            JobsKind::DescribeAccepted => "get/accepted",
            JobsKind::DescribeRejected => "get/rejected",
            JobsKind::Update => "update",
            JobsKind::UpdateAccepted => "update/accepted",
            JobsKind::UpdateRejected => "update/rejected",
        }
    }
}

/// What a topic of jobs says. It borrows from the text.
#[derive(Clone, Copy, Debug, PartialEq, Eq)]
pub struct JobsMatch<'a> {
    /// 1 to 128 of the ASCII letters and digits, `:`, `_` and `-`.
    pub thing: &'a str,
    /// The job, 1 to 64 of the same without `:`, or `$next`, where the kind has one.
    pub job: Option<&'a str>,
    pub kind: JobsKind,
}

/// The topic of a thing's jobs, `$aws/things/THING/jobs/KIND`, or where the kind has a job
/// `$aws/things/THING/jobs/JOB/KIND`. A thing is 1 to 128 of the ASCII letters and digits, `:`, `_`
/// and `-`, and a job 1 to 64 of them without `:`. `$next` stands for the job that is next, where it
/// is described. The fault is `Thing` where the thing isn't one, else `Job`: where the job isn't
/// one, is missing, or stands where the kind has none.
pub fn jobs_topic(thing: &str, job: Option<&str>, kind: JobsKind) -> Result<TopicText, NameFault>
    ensures text { IfOk result (λ topic. topic.bytes ≡ jobs.topic_text (jobs.parts_of thing.now (option_copied job.entry) kind)) }
    ensures fault { fault_in result ≡ jobs.fault_of thing.now (option_copied job.entry) kind }
    ensures back { IfOk result (λ topic. jobs.read topic.bytes ≡ Ok (jobs.parts_of thing.now (option_copied job.entry) kind)) }
{
    match fault_of(thing, job, kind) {
        Some(fault) => Err(fault),
        None => Ok(topic_text(thing, job, kind)),
    }
}

#[tactic(auto, unfolding(crate::specs::Jobs::fault_of))]
fn fault_of(thing: &str, job: Option<&str>, kind: JobsKind) -> Option<NameFault>
    ensures fault { result ≡ jobs.fault_of thing.now (option_copied job.entry) kind }
    ensures thing { IfNone result (length thing.now ≤ 128) }
    ensures job { IfNone result (IfSome job.entry (λ job. length job.now ≤ 64)) }
{
    if !is_thing(thing) {
        Some(NameFault::Thing)
    } else if !has_class(kind, job) {
        Some(NameFault::Job)
    } else {
        None
    }
}

#[tactic(auto, unfolding(crate::specs::Jobs::topic_text))]
fn topic_text(thing: &str, job: Option<&str>, kind: JobsKind) -> TopicText
    requires thing { length thing.now ≤ 128 }
    requires job { IfSome job (λ job. length job.now ≤ 64) }
    ensures { result.bytes ≡ jobs.topic_text (jobs.parts_of thing.now (option_copied job.entry) kind) }
{
    let mut topic = with_job(front(thing, "/jobs/"), job);
    topic.push_str(kind.word());
    topic
}

fn with_job(mut topic: TopicText, job: Option<&str>) -> TopicText
    requires front { array_string_len topic ≤ 149 }
    requires job { IfSome job (λ job. length job.now ≤ 64) }
    ensures text { result.bytes ≡ jobs.with_job topic.bytes (option_copied job.entry) }
    ensures len { array_string_len result ≤ 219 }
{
    match job {
        Some(job) => {
            topic.push_str(job);
            topic.push_str("/");
            topic
        }
        None => topic,
    }
}

/// What a text says as a topic of jobs. The fault is the first that applies: `Root`; `Thing`;
/// `Kind` where `jobs/` doesn't follow; `Part` where the level behind `jobs/` isn't a job and the
/// word of a kind that has a job follows it; `Kind` where what is left is no kind.
pub fn match_jobs(text: &str) -> Result<JobsMatch<'_>, TopicFault>
    ensures reading { Gives jobs.found_parts result (jobs.read text.now) }
    ensures topic { IfOk result (λ found. jobs.IsTopic text.now (jobs.found_parts found)) }
    ensures fault { IfErr result (λ fault. IsJobsFault text.now fault) }
    ensures none { IfErr result (λ _. (parts : jobs.Parts) → jobs.IsTopic text.now parts → ⊥) }
{
    read(text)
}

#[tactic(auto, unfolding(crate::specs::Jobs::read))]
fn read(text: &str) -> Result<JobsMatch<'_>, TopicFault>
    ensures { Gives jobs.found_parts result (jobs.read text.now) }
{
    let (thing, rest) = front_of("jobs/", text)?;
    let (job, kind) = found_in(rest)?;
    Ok(JobsMatch { thing, job, kind })
}

/// The job and the kind of what stands behind `jobs/`.
#[tactic(auto, unfolding(crate::specs::Jobs::found_in))]
fn found_in(rest: &str) -> Result<(Option<&str>, JobsKind), TopicFault>
    ensures { Gives (λ found. (option_copied found.0, found.1)) result (jobs.found_in rest.now) }
{
    match job_in(rest) {
        Some((job, kind)) => {
            if has_class(kind, Some(job)) {
                Ok((Some(job), kind))
            } else {
                Err(TopicFault::Part)
            }
        }
        None => match plain_kind(rest) {
            Some(kind) => Ok((None, kind)),
            None => Err(TopicFault::Kind),
        },
    }
}

/// The level that stands in the place of a job, and the kind whose word follows.
#[tactic(auto, unfolding(crate::specs::Jobs::job_in))]
fn job_in(rest: &str) -> Option<(&str, JobsKind)>
    ensures { option_map (λ found. (found.0.now, found.1)) result ≡ jobs.job_in rest.now }
{
    let (level, below) = first_level(rest);
    match below {
        Some(word) => match job_kind(word) {
            Some(kind) => Some((level, kind)),
            None => None,
        },
        None => None,
    }
}

/// Whether a topic of this kind may have this job, or none.
fn has_class(kind: JobsKind, job: Option<&str>) -> bool
    ensures class { result ≡ jobs.has_class kind (option_copied job.entry) }
    ensures short { IsTrue result → IfSome job.entry (λ job. length job.now ≤ 64) }
{
    match job {
        Some(job) => takes_job(kind) && (is_job(job) || (takes_next(kind) && job == "$next")),
        None => !takes_job(kind),
    }
}

/// Whether the kind's topics have the level of a job.
fn takes_job(kind: JobsKind) -> bool
    ensures { result ≡ jobs.takes_job kind }
{
    takes_next(kind)
        || matches!(
            kind,
            JobsKind::Update | JobsKind::UpdateAccepted | JobsKind::UpdateRejected
        )
}

/// Whether `$next` may stand for the job.
fn takes_next(kind: JobsKind) -> bool
    ensures { result ≡ jobs.takes_next kind }
{
    matches!(
        kind,
        JobsKind::Describe | JobsKind::DescribeAccepted | JobsKind::DescribeRejected
    )
}

#[tactic(auto, unfolding(crate::specs::Jobs::job_kind_of))]
fn job_kind(word: &str) -> Option<JobsKind>
    ensures { result ≡ jobs.job_kind_of word.now }
{
    let kinds = [
        JobsKind::Describe,
        JobsKind::DescribeAccepted,
        JobsKind::DescribeRejected,
        JobsKind::Update,
        JobsKind::UpdateAccepted,
        JobsKind::UpdateRejected,
    ];
    kind_of(kinds.as_slice(), word)
}

#[tactic(auto, unfolding(crate::specs::Jobs::plain_kind_of))]
fn plain_kind(word: &str) -> Option<JobsKind>
    ensures { result ≡ jobs.plain_kind_of word.now }
{
    let kinds = [
        JobsKind::Notify,
        JobsKind::NotifyNext,
        JobsKind::Pending,
        JobsKind::PendingAccepted,
        JobsKind::PendingRejected,
        JobsKind::StartNext,
        JobsKind::StartNextAccepted,
        JobsKind::StartNextRejected,
    ];
    kind_of(kinds.as_slice(), word)
}
