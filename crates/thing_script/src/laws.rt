//! Laws of the definitions, each the contract of a function that does nothing.

ghost use Rattle.thing_script.specs.Laws as laws;

/// The payloads of a script, as a text spells it, are such as a request may have.
#[tactic(auto, using(crate::proofs::Short::read_script_short))]
pub fn read_scripts_are_short()
    ensures { laws.ReadScriptsAreShort }
{}

/// The test of a shadow's topic is exact.
#[tactic(auto, using(crate::proofs::Found::shadow_exact))]
pub fn shadows_are_found()
    ensures { laws.ShadowsAreFound }
{}

/// The test of a topic of jobs is exact.
#[tactic(auto, using(crate::proofs::Found::jobs_exact))]
pub fn jobs_are_found()
    ensures { laws.JobsAreFound }
{}
