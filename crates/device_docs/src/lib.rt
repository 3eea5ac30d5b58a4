//! The JSON documents of AWS IoT's device services: job executions with an image to fetch, updates of a job's
//! status, and changes of a shadow.
#![tactic(auto)]

mod changes;
mod classes;
mod executions;
mod faults;
mod jobs;
mod keys;
mod laws;
mod members;
mod updates;

pub use changes::{Change, Scalar, Sets, read_change};
pub use executions::write_execution;
pub use faults::{ChangeFault, DocFault};
pub use jobs::{Job, read_execution};
pub use keys::Key;
pub use laws::{
    change_example_is_read, digests_are_base64, faultless_is_a_change, job_example_is_read,
    only_idle_names_no_job, updates_are_json,
};
pub use updates::{JobStatus, write_update};

/// Want of memory.
pub type NoMemory = std::alloc::AllocError;
