//! A whole replay.

ghost use Rattle.std.specs.Prelude.{◌≡◌, ◌<◌, ◌≤◌, ℕ, length, reverse, true, Some, IfOk};
ghost use Rattle.std.specs.List.{AllByRecursion};
ghost use Rattle.broker_tape.specs.Playing.{counts};
ghost use Rattle.agent_journal.specs.Sound.{IsSoundEntry};
ghost use Rattle.agent_journal.specs.Projections.{messages_of};
ghost use Rattle.agent_journal.specs.Setups.{is_client};
ghost use Rattle.agent_table.specs.Sizes.{Sizes};
ghost use Rattle.replay_rounds.specs.Asked.{IsValidLine};
ghost use Rattle.replay_rounds.specs.Bound.{finished};
ghost use Rattle.agent_table.specs.Endings.{ending_of};
ghost use Rattle.replay_rounds.specs.Rounds.{begun};
ghost use Rattle.replay_agent.specs.Runs.{sizes_of};

use crate::run::Run;
use agent_core::Core;
use agent_journal::{Ending, Journal, Setup};
use agent_script::Script;
use broker_tape::{Tape, TapeLink};
use mqtt_packet::NoMemory;
use std::alloc::Global;

/// What a replay leaves.
#[derive(Debug, Drop)]
pub struct Replayed {
    /// The agent's entries, oldest first.
    pub journal: Journal,
    /// How many messages were passed to the task.
    pub messages: u128,
    /// How the agent ended.
    pub ending: Ending,
    /// What each connection took and gave, and what was counted.
    pub link: TapeLink,
}

/// Replays a script of one task against a tape, a round each `tick` milliseconds, up to the end. The script has no
/// lines for a shadow or a job: those were made requests before.
pub fn replay<const ACKS: usize, const IN: usize, const ROUTES: usize>(
    alloc: Global,
    setup: Setup,
    tick: u64,
    script: &Script,
    tape: Tape,
) -> Result<Replayed, NoMemory>
    requires sizes { (0 < ACKS) × (ACKS ≤ 1024) × (0 < IN) × (IN ≤ 1024) × (0 < ROUTES) × (ROUTES ≤ 1024) }
    requires client { is_client setup.client ≡ true }
    requires reopen { setup.reopen ≤ 4294967294 }
    requires one_task { setup.tasks ≡ 1 }
    requires lines { AllByRecursion IsValidLine script.now.lines }
    requires few { length script.now.lines ≤ 4000000000 }
    ensures journal { IfOk result (λ r. reverse r.journal ≡ (finished (begun setup (sizes_of ACKS IN ROUTES) tick script.now.lines tape)).past) }
    // The link is one that the tape plays.
    ensures took { IfOk result (λ r. r.link.taken ≡ (finished (begun setup (sizes_of ACKS IN ROUTES) tick script.now.lines tape)).taken) }
    ensures gave { IfOk result (λ r. r.link.given ≡ (finished (begun setup (sizes_of ACKS IN ROUTES) tick script.now.lines tape)).given) }
    ensures counted { IfOk result (λ r. counts r.link ≡ (finished (begun setup (sizes_of ACKS IN ROUTES) tick script.now.lines tape)).counts) }
    ensures sound { IfOk result (λ r. AllByRecursion IsSoundEntry r.journal) }
    ensures messages { IfOk result (λ r. r.messages ≡ messages_of 0 (reverse r.journal)) }
    ensures ending { IfOk result (λ r. Some r.ending ≡ ending_of setup (sizes_of ACKS IN ROUTES) (reverse r.journal)) }
{
    let mut core = match Core::<ACKS, IN, ROUTES>::new(alloc, setup) {
        Ok(core) => core,
        Err((_, e)) => return Err(e),
    };
    let mut run = Run::new(alloc, tape, tick);
    run.run(&mut core, script)?;
    match run.notes.ending {
        Some(ending) => Ok(Replayed {
            journal: run.journal,
            messages: run.notes.messages,
            ending,
            link: run.link,
        }),
        None => unreachable!(),
    }
}
