//! How a run of the agent ends.

ghost use Rattle.std.specs.Prelude.{◌≡◌};
ghost use Rattle.agent_journal.specs.Endings as endings;

use crate::entry::Cause;
use crate::off::OffBy;
use crate::setup::Phase;

/// How a run of the agent ended.
#[derive(Clone, Copy, Debug, PartialEq, Eq)]
pub enum Ending {
    /// All was done, or a task asked for the end.
    Done,
    /// Connections broke too often.
    GaveUp,
    /// The broker refused the connection, with a code above 0.
    Refused { code: u8 },
    /// The broker's bytes were no packets, or a packet that may not come.
    Bytes,
    /// The broker kept a session of this client that the agent doesn't know.
    Held,
}

impl Ending {
    /// How a run ends by a cause that led from this phase to the phase Off.
    pub fn by(phase: Phase, cause: &Cause) -> Ending
        ensures { result ≡ endings.ending_by phase cause.now }
    {
        Ending::of(OffBy::by(phase, cause))
    }

    /// How a run ends where the agent came to Off so.
    pub fn of(off: OffBy) -> Ending
        ensures { result ≡ endings.ending_of off }
    {
        match off {
            OffBy::Finish | OffBy::Disconnect | OffBy::Terminate => Ending::Done,
            OffBy::GaveUp => Ending::GaveUp,
            OffBy::Refused { code } => Ending::Refused { code },
            OffBy::Bytes | OffBy::Wrong => Ending::Bytes,
            OffBy::Held => Ending::Held,
        }
    }

    /// How a run has ended behind one more entry, by the phases before and behind it.
    pub fn behind(
        before: Phase,
        behind: Phase,
        cause: &Cause,
        ending: Option<Ending>,
    ) -> Option<Ending>
        ensures { result ≡ endings.ending_behind before behind cause.now ending }
    {
        match (before, behind) {
            (Phase::Off, _) => ending,
            (_, Phase::Off) => Some(Ending::by(before, cause)),
            _ => None,
        }
    }

    /// The exit status: 0, 3, 4, 5 or 6.
    pub fn status(self) -> u8
        ensures { result ≡ endings.status self }
    {
        match self {
            Ending::Done => 0,
            Ending::GaveUp => 3,
            Ending::Refused { .. } => 4,
            Ending::Bytes => 5,
            Ending::Held => 6,
        }
    }

    /// The word of the last line that is printed.
    pub fn word(self) -> &'static str
        ensures { result.now ≡ endings.last_word self }
    {
        match self {
            Ending::Done => "ok",
            Ending::GaveUp => "fault link",
            Ending::Refused { .. } => "fault refused ",
            Ending::Bytes => "fault bytes",
            Ending::Held => "fault held",
        }
    }

    /// The code behind that word.
    pub fn code(self) -> Option<u64>
        ensures { result ≡ endings.last_code self }
    {
        match self {
            Ending::Refused { code } => Some(u64::from(code)),
            Ending::Done | Ending::GaveUp | Ending::Bytes | Ending::Held => None,
        }
    }
}
