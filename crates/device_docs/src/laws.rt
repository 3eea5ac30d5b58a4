//! Laws of the definitions, each the contract of a function that does nothing.

ghost use Rattle.device_docs.specs.Examples as examples;
ghost use Rattle.device_docs.specs.Laws as laws;

/// The example of a job document names its job.
pub fn job_example_is_read()
    ensures { examples.JobIsRead }
{}

/// The example of a change is read, its members in the order of their keys' bytes.
pub fn change_example_is_read()
    ensures { examples.ChangeIsRead }
{}

/// A digest is read from a text exactly where the text is its Base64.
pub fn digests_are_base64()
    ensures { laws.DigestsAreBase64 }
{}

/// A document in which nothing is wrong names a job, unless it has no execution or one without members.
pub fn only_idle_names_no_job()
    ensures { laws.OnlyIdleNamesNoJob }
{}

/// A text in which nothing is wrong is a change.
pub fn faultless_is_a_change()
    ensures { laws.FaultlessIsAChange }
{}

/// The updates are JSON: objects with the status as their one member.
pub fn updates_are_json()
    ensures { laws.UpdatesAreJson }
{}
