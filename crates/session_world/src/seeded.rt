//! The events of a seed, played.

ghost use Rattle.std.specs.Prelude.{◌≡◌, ◌+◌, ◌<◌, ◌≤◌, IfOk, OnOk};
ghost use Rattle.session_world.specs.Counts.{totals};
ghost use Rattle.session_world.specs.Generating.{generated};
ghost use Rattle.session_world.specs.Kept.{StandsFor};
ghost use Rattle.session_world.specs.Playing.{all_played, played};
ghost use Rattle.session_world.specs.Setups.{dev, usual};
ghost use Rattle.session_world.specs.World as worlds;

use crate::draws::generate;
use crate::event::Event;
use crate::totals::Totals;
use crate::world::World;
use mqtt_packet::NoMemory;
use std::alloc::Global;

/// Plays the n events of a seed, and counts what came of them.
#[tactic(auto, using(crate::proofs::Following::follows_first, crate::proofs::Following::follows_next, crate::proofs::Following::follows_all))]
pub fn run(alloc: Global, seed: u64, n: u32) -> Result<Totals, NoMemory>
    requires { n ≤ 4000000000 }
    ensures { IfOk result (λ counted. counted ≡ totals (all_played dev usual (generated seed n) worlds.nothing)) }
{
    let mut left = generate(alloc, seed, n)?;
    // Each leaves at the end, so that it moves and takes no memory.
    left.reverse();
    let mut world = World::new(alloc)?;
    'events: while let Some(event) = left.pop() {
        play_on(&mut world, event)?;
    }
    Ok(world.totals())
}

fn play_on(world: &mut World, event: Event) -> Result<(), NoMemory>
    requires few { world.old.kept.events < 4000000000 }
    ensures stands { OnOk result ((w : worlds.World) → StandsFor world.old.kept w → StandsFor world.new.kept (played dev usual w event)) }
    ensures counts { OnOk result (world.new.kept.events ≡ world.old.kept.events + 1) }
{
    match world.play(event) {
        Ok(_) => Ok(()),
        Err((_, e)) => Err(e),
    }
}
