//! The end of a command: its text is written, and its status decided.

ghost use Rattle.std.specs.Prelude.{◌≡◌, ◌⊎◌};
ghost use Rattle.command_answers.specs.Answers as answers;
ghost use Rattle.command_answers.specs.Answers.{Ends, IsPlain, answer, sink_now};

use agent_link::{Fault, Sink, write_all};

/// Writes a command's text and answers its status, or behind a front of the text 8 where the sink failed, and 7 where
/// it had no memory.
#[tactic(auto, using(crate::proofs::Written::ends, crate::proofs::Written::one_of))]
pub fn finish<O: Sink>(out: &mut O, text: &[u8], status: u8) -> u8
    requires plain { IsPlain status }
    ensures ends { Ends result (sink_now (O.written out.old) (O.faults out.old))
        (sink_now (O.written out.new) (O.faults out.new)) (answer status text.now) }
    ensures one_of { (result ≡ status) ⊎ (result ≡ 7) ⊎ (result ≡ 8) }
{
    exit_status(write_all(out, text), status)
}

/// The exit status of a command with this status that wrote its text so: 8 where the sink failed, and 7 where it had
/// no memory.
pub fn exit_status(written: Result<(), Fault>, status: u8) -> u8
    ensures status { result ≡ answers.exit_status written status }
{
    match written {
        Ok(()) => status,
        Err(Fault::Failed) => 8,
        Err(Fault::NoMemory) => 7,
    }
}
