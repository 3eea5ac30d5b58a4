//! The whole program, over any source and any sink: the words pick a command.

ghost use Rattle.std.specs.Prelude.{◌≡◌, ◌≢◌, map, None, Some, IfSome};
ghost use Rattle.agent_link.specs.Counts.{raised};
ghost use Rattle.agent_main.specs.Commands.{EndsAs, IsNotBuilt, Prints, no_reading, not_built};
ghost use Rattle.command_answers.specs.Answers.{Ends, sink_now};
ghost use Rattle.command_answers.specs.Sources.{EndsBySource, source_now};
ghost use Rattle.command_words.specs.Commands.{words_of};
ghost use Rattle.command_words.specs.Ranges.{AreInRange};
ghost use Rattle.command_words.specs.declared.words.MirrorWords.{MirrorWords};
ghost use Rattle.command_words.specs.declared.words.RunWords.{RunWords};
ghost use Rattle.command_words.specs.declared.words.Words.TheVariants.{Mirror, Replay, World};
ghost use Rattle.command_words.specs.declared.words.WorldWords.{WorldWords};
ghost use Rattle.mirror_run.specs.Answers.{EndsMirror};
ghost use Rattle.replay_run.specs.Commands.{source_answer};
ghost use Rattle.replay_run.specs.Headline.{HasRun, PrintsReplay};
ghost use Rattle.world_run.specs.Answers.{world_answer};

use agent_link::{Sink, Source};
use command_answers::finish;
use command_words::{Words, WordsFault, read_words};
use mirror_run::mirror_command;
use replay_run::replay_command;
use std::alloc::Global;
use std::sync::Wait;
use std::thread::Threads;
use world_run::world_call;

/// Runs the command that the words spell, and answers its exit status: that of the command, 1 where the words have no reading,
/// and 13 where the command isn't built yet. Of the commands only a mirror has threads and waits.
#[tactic(auto, using(crate::proofs::Picked::replay_picked, crate::proofs::Picked::history_picked, crate::proofs::Picked::world_picked, crate::proofs::Picked::mirror_picked, crate::proofs::Picked::other_picked, crate::proofs::Picked::none_ends, crate::proofs::Picked::none_prints, crate::proofs::Picked::none_world, crate::proofs::Picked::none_mirror, crate::proofs::Picked::none_picked, crate::proofs::Picked::unread_ends, crate::proofs::Picked::unread_prints, crate::proofs::Picked::unread_world, crate::proofs::Picked::unread_mirror, crate::proofs::Picked::unread_picked, command_answers::proofs::Sourced::nothing))]
pub fn top<R: Threads + Wait + Sync, S: Source, O: Sink>(
    rt: &R,
    alloc: Global,
    words: &[&str],
    script: &mut S,
    out: &mut O,
) -> u8
    // Words without a reading, whatever the source is.
    ensures no_reading { words_of (map (λ word. word.now) words.now) ≡ None → Ends result
        (sink_now (O.written out.old) (O.faults out.old))
        (sink_now (O.written out.new) (O.faults out.new)) no_reading }
    // A command that isn't built, whatever the source is.
    ensures not_built { IfSome (words_of (map (λ word. word.now) words.now)) (λ command. IsNotBuilt command → Ends result
        (sink_now (O.written out.old) (O.faults out.old))
        (sink_now (O.written out.new) (O.faults out.new)) not_built) }
    // A replay: what is written and answered is a function of the words and the source's text.
    ensures replay { (w : RunWords) → words_of (map (λ word. word.now) words.now) ≡ Some (Replay w) → EndsBySource result
        (source_now (S.left script.old) (S.faults script.old))
        (source_now (S.left script.new) (S.faults script.new))
        (sink_now (O.written out.old) (O.faults out.old))
        (sink_now (O.written out.new) (O.faults out.new)) (source_answer w) }
    // Where its agent ran, what is written is one legal history of it.
    ensures replay_history { (w : RunWords) → words_of (map (λ word. word.now) words.now) ≡ Some (Replay w) → HasRun result →
        PrintsReplay w (S.left script.old) result (O.written out.old) (O.written out.new) }
    // A world: what is written is what the seed's events come to.
    ensures world { (w : WorldWords) → words_of (map (λ word. word.now) words.now) ≡ Some (World w) → Ends result
        (sink_now (O.written out.old) (O.faults out.old))
        (sink_now (O.written out.new) (O.faults out.new)) (world_answer w) }
    // A mirror: what is written is the document of the source's published changes, and no reader ends behind it.
    ensures mirror { (w : MirrorWords) → words_of (map (λ word. word.now) words.now) ≡ Some (Mirror w) → EndsMirror w result
        (source_now (S.left script.old) (S.faults script.old))
        (source_now (S.left script.new) (S.faults script.new))
        (sink_now (O.written out.old) (O.faults out.old))
        (sink_now (O.written out.new) (O.faults out.new)) }
    ensures words { result ≡ 1 → words_of (map (λ word. word.now) words.now) ≡ None }
    ensures source_fault { result ≡ 9 → S.faults script.new ≡ raised (S.faults script.old) }
{
    match read_words(alloc, words) {
        Ok(words) => run_command(rt, alloc, &words, script, out),
        Err(WordsFault::Words) => finish(out, b"fault words\n", 1),
        Err(WordsFault::NoMemory) => 7,
    }
}

/// Runs a command.
fn run_command<R: Threads + Wait + Sync, S: Source, O: Sink>(
    rt: &R,
    alloc: Global,
    words: &Words,
    script: &mut S,
    out: &mut O,
) -> u8
    requires { AreInRange words.now }
    ensures ends { EndsAs words.now result
        (source_now (S.left script.old) (S.faults script.old))
        (source_now (S.left script.new) (S.faults script.new))
        (sink_now (O.written out.old) (O.faults out.old))
        (sink_now (O.written out.new) (O.faults out.new)) }
    ensures prints { Prints words.now (S.left script.old) result (O.written out.old) (O.written out.new) }
    ensures no_words { result ≢ 1 }
    ensures source_fault { result ≡ 9 → S.faults script.new ≡ raised (S.faults script.old) }
{
    match words {
        Words::Replay(words) => replay_command(alloc, words, script, out),
        Words::Share(_) => finish(out, b"fault not built\n", 13),
        Words::Fetch(_) => finish(out, b"fault not built\n", 13),
        Words::Broker(_) => finish(out, b"fault not built\n", 13),
        Words::World(words) => world_call(alloc, words, out),
        Words::Mirror(words) => mirror_command(rt, alloc, words, script, out),
    }
}
