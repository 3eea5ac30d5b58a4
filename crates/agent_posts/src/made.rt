//! Notes, made from what a journal says.

ghost use Rattle.std.specs.Prelude.{◌≡◌, ℕ, ◌≤◌, [], ◌∷◌, Some, IfOk, length, ◌≢◌};
ghost use Rattle.agent_journal.specs.Notes.{noted};
ghost use Rattle.agent_table.specs.Closings.{HasFewCodes};
ghost use Rattle.task_queues.specs.Fronts.{front_in, codes_in, IsSoundNote};
ghost use Rattle.agent_posts.specs.Kinds as kinds;
ghost use Rattle.agent_posts.specs.Waiting.{told, IsTold};
ghost use Rattle.agent_posts.specs.Mail.{said, IsMadeAt, AreFew};

use crate::kind::{Kind, kind_of};
use crate::place::Place;
use crate::shown::Shown;
use agent_journal::{Effect, Entry};
use front_board::{Mark, Named};
use list_types::Copied;
use mqtt_packet::NoMemory;
use std::alloc::Global;
use std::marker::{Model, PhantomData};
use task_queues::Note;

/// A note for a mailbox of the board that `J` names. Contracts see the note.
#[derive(Drop)]
pub(crate) struct Made<J: Named> {
    note: Note,
    of: PhantomData<J>,
}

impl<J: Named> Model for Made<J> {
    ghost use Rattle.task_queues.specs.declared.note.Note.{Note};
    ghost use Rattle.task_queues.specs.Fronts.{IsSoundNote};

    ghost Value = { Note };

    ghost view = { λ m. m.note };

    ghost invariant = { λ m. IsSoundNote J.board m.note };
}

impl<J: Named> Made<J> {
    /// A note that a mailbox takes.
    pub fn new(note: Note) -> Self
        requires sound { IsSoundNote J.board note }
        ensures { result ≡ note }
    {
        Made {
            note,
            of: PhantomData,
        }
    }

    /// What it tells of.
    pub fn kind(&self) -> Kind
        ensures { result ≡ kinds.kind_of self.now }
    {
        kind_of(&self.note)
    }

    /// The note.
    pub fn into_note(self) -> Note
        ensures note { result ≡ self }
        ensures sound { IsSoundNote J.board result }
    {
        let Made { note, of: _ } = self;
        note
    }
}

/// The note of what the journal says at a place, with a mark of all that is shown.
pub(crate) fn make<J: Named>(
    alloc: Global,
    entries: &[Entry],
    place: Place,
    shown: &mut Shown<J>,
) -> Result<Made<J>, NoMemory>
    requires told { (tasks task : ℕ) × IsTold tasks entries.now place task }
    requires few { AreFew entries.now }
    requires raised { length entries.now ≤ shown.old }
    ensures same { shown.new ≡ shown.old }
    ensures made { IfOk result (IsMadeAt entries.now place) }
{
    let Some(entry) = entries.get(place.entry) else {
        unreachable!()
    };
    let Some(effect) = entry.effects.get(place.effects) else {
        unreachable!()
    };
    let note = note_of(alloc, effect, entry.at, shown.mark())?;
    Ok(Made::new(note))
}

/// The note of an effect, which tells a task something, with this mark.
fn note_of(alloc: Global, effect: &Effect, at: u64, front: Mark) -> Result<Note, NoMemory>
    requires told { told effect.now ≢ [] }
    requires few { HasFewCodes effect.now }
    ensures says { IfOk result (λ note. noted at (told effect.now) ≡ said note ∷ []) }
    ensures front { IfOk result (λ note. front_in note ≡ Some front) }
    ensures few { IfOk result (λ note. length (codes_in note) ≤ 8) }
{
    let front = Some(front);
    match effect {
        Effect::Done {
            task: _,
            seq,
            outcome,
        } => Ok(Note::Done {
            seq: *seq,
            outcome: outcome.copy(alloc)?,
            at,
            front,
        }),
        Effect::Pass { task: _, message } => Ok(Note::Message {
            message: message.copy(alloc)?,
            at,
            front,
        }),
        Effect::Closed { task: _ } => Ok(Note::Closed { at, front }),
        Effect::Send { packet: _ } => unreachable!(),
    }
}
