//! Kinds of notes.

ghost use Rattle.std.specs.Prelude.{◌≡◌};
ghost use Rattle.agent_posts.specs.Kinds as kinds;

use task_queues::Note;

/// What a note tells of.
#[derive(Clone, Copy, Debug, PartialEq, Eq)]
pub enum Kind {
    /// The command of this number ended.
    Done(u32),
    /// A message came.
    Message,
    /// No more messages will come.
    Closed,
}

/// What this note tells of.
pub(crate) fn kind_of(note: &Note) -> Kind
    ensures { result ≡ kinds.kind_of note.now }
{
    match note {
        Note::Done { seq, .. } => Kind::Done(*seq),
        Note::Message { .. } => Kind::Message,
        Note::Closed { .. } => Kind::Closed,
    }
}
