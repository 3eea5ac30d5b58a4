//! Laws of the definitions, each the contract of a function that does nothing. By them what a
//! writer gives is read back as the same parts, and a text has one reading at most.

ghost use Rattle.thing_topics.specs.Laws as laws;

/// A text reads as the parts of a shadow's topic exactly where it is their topic.
pub fn shadow_readings_are_topics()
    ensures { laws.ShadowReadingsAreTopics }
{}

/// A text reads as the parts of a topic of jobs exactly where it is their topic.
pub fn jobs_readings_are_topics()
    ensures { laws.JobsReadingsAreTopics }
{}

/// A text reads as the parts of a stream's topic exactly where it is their topic.
pub fn stream_readings_are_topics()
    ensures { laws.StreamReadingsAreTopics }
{}

/// A text is refused as a shadow's topic with a fault exactly where the fault is its own.
pub fn shadow_faults_are_their_own()
    ensures { laws.ShadowFaultsAreTheirOwn }
{}

/// A text is refused as a topic of jobs with a fault exactly where the fault is its own.
pub fn jobs_faults_are_their_own()
    ensures { laws.JobsFaultsAreTheirOwn }
{}

/// A text is refused as a stream's topic with a fault exactly where the fault is its own.
pub fn stream_faults_are_their_own()
    ensures { laws.StreamFaultsAreTheirOwn }
{}
