//! The topics of AWS IoT's device services: shadows, jobs and streams.
#![tactic(auto)]

mod classes;
mod cuts;
mod faults;
mod fronts;
mod jobs;
mod kinds;
mod laws;
mod shadows;
mod streams;
mod topic_text;

pub use classes::is_thing;
pub use faults::{NameFault, TopicFault};
pub use jobs::{JobsKind, JobsMatch, jobs_topic, match_jobs};
pub use laws::{
    jobs_faults_are_their_own, jobs_readings_are_topics, shadow_faults_are_their_own,
    shadow_readings_are_topics, stream_faults_are_their_own, stream_readings_are_topics,
};
pub use shadows::{ShadowKind, ShadowMatch, match_shadow, shadow_topic};
pub use streams::{StreamKind, StreamMatch, match_stream, stream_topic};
pub use topic_text::TopicText;
