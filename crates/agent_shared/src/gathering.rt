//! The gathering: what an agent and its tasks did is put together behind the end.

ghost use Rattle.std.specs.Prelude.{◌≡◌, ◌≤◌, false, length};
ghost use Rattle.agent_table.specs.Histories.{IsLegalPast, IsWholePast};
ghost use Rattle.agent_table.specs.Laws.{HasIdentifiers, AreEarned};
ghost use Rattle.agent_end.specs.Turns.{HasEnded};
ghost use Rattle.agent_shared.specs.Gathered.{IsGathered, AreEndsOf, BecameAll, AreBehind};

use crate::ended::{Room, end_all};
use crate::run::Run;
use agent_end::AgentEnd;
use front_board::Named;
use std::sync::Wait;
use task_end::LeftEnd;

/// Puts together what an agent that has ended and its tasks did: the ends are those of its tasks, by number, and no turn found too
/// little memory. What the mailboxes still hold is taken in. It takes no memory.
pub fn gather<
    J: Named,
    R: Wait,
    const POOL: usize,
    const QUEUE: usize,
    const INBOX: usize,
    const ACKS: usize,
    const IN: usize,
    const ROUTES: usize,
>(
    rt: &R,
    room: Room,
    agent: AgentEnd<J, QUEUE, INBOX, ACKS, IN, ROUTES>,
    ends: Vec<LeftEnd<J, POOL, QUEUE, INBOX>>,
) -> Run
    requires memory { agent.short ≡ false }
    requires ended { HasEnded agent }
    requires ends { AreEndsOf agent.taking.receiver.queue 0 agent.mail.putters ends.items }
    requires room { length ends.items ≤ room }
    // It is the agent's journal, which has gone through to its end.
    ensures journal { result.past ≡ agent.taking.recorded.past }
    ensures legal { IsLegalPast agent.taking.recorded.setup agent.taking.recorded.sizes result.past }
    ensures whole { IsWholePast agent.taking.recorded.setup agent.taking.recorded.sizes result.past }
    ensures earned { HasIdentifiers agent.taking.recorded.sizes → AreEarned result.past }
    // What was taken are its Takes, and each task was told what it says.
    ensures gathered { IsGathered result }
    ensures became { BecameAll result.past ends.items result.tasks }
    ensures behind { AreBehind 0 result.past result.tasks }
{
    let (intake, posts) = agent.into_parts();
    let (recorder, queue, mut receiver) = intake.into_parts();
    let tasks = end_all(
        rt,
        &queue,
        &mut receiver,
        posts.into_posts(),
        ends,
        room.tasks,
    );
    let None = queue.recv(rt, &mut receiver) else {
        // Each task has left, and sends nothing behind its leave.
        unreachable!()
    };
    Run {
        entries: recorder.into_entries(),
        receiver,
        tasks,
    }
}
