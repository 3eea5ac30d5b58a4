//! A link that a tape plays.

ghost use Rattle.std.specs.Prelude.{◌≡◌, ◌≢◌, ℕ, ◌+◌, ◌^◌, ◌<◌, ◌≤◌, ◌↔◌, [], ◌∷◌, ◌++◌, length, drop, take, slice_get, true, false, Some, None, IfOk, IfSome, IsErrOf, OnOk, OnErr, Ok};
ghost use Rattle.std.specs.Option.{option_map};
ghost use Rattle.std.specs.Io.{WritesAtMost};
ghost use Rattle.agent_link.specs.Counts.{counted, with_fault, with_end, with_nothing};
ghost use Rattle.agent_link.specs.Wires.{after_open, after_send, after_recv, ended, silent, onto_last, FitsIn, IsFrontOf};
ghost use Rattle.broker_tape.specs.Playing.{unplayed, closed, counts, opens, room_at, hears, present, fitting, room_behind, advance};

use crate::played::{append_last, begin, front_of, next_item, next_opening, room_at};
use crate::tape::{Item, Tape};
use agent_link::{Fault, Heard, Link};
use list_types::Blob;
use std::alloc::Global;
use std::marker::Model;

/// A link whose broker is a tape. Each connection gives what its items say, one item a receive, and takes as many
/// bytes as it has room for.
#[derive(Debug, Drop)]
pub struct TapeLink {
    alloc: Global,
    items: Vec<Item>,
    /// Where the next item stands, and how many of its bytes or receives were played.
    at: usize,
    played: u64,
    /// How many bytes are still taken, where that is bounded.
    room: Option<u64>,
    taken: Vec<Blob>,
    given: Vec<Blob>,
    faults: u64,
    ends: u64,
    nothings: u64,
}

impl Model for TapeLink {
    ghost use Rattle.std.specs.Prelude.{drop};
    ghost use Rattle.broker_tape.specs.Playing.{Playing, advance};

    ghost Value = { Playing };

    ghost view = { λ l. record {
      left = advance l.played (drop l.at l.items.items);
      room = l.room;
      taken = l.taken.items;
      given = l.given.items;
      faults = l.faults;
      ends = l.ends;
      nothings = l.nothings;
    } };
}

impl TapeLink {
    /// A link at the start of its tape, with no connection yet.
    #[tactic(auto, using(crate::proofs::Plays::advance_none))]
    pub fn new(alloc: Global, tape: Tape) -> Self
        ensures { result ≡ unplayed tape }
    {
        TapeLink {
            alloc,
            items: tape.into_vec(),
            at: 0,
            played: 0,
            room: Some(0),
            taken: Vec::new(alloc),
            given: Vec::new(alloc),
            faults: 0,
            ends: 0,
            nothings: 0,
        }
    }

    /// What a connection, counted from 0, has taken.
    pub fn taken(&self, connection: usize) -> Option<&[u8]>
        ensures { option_map (λ bytes. bytes.now) result ≡ slice_get self.now.taken connection }
    {
        match self.taken.get(connection) {
            Some(bytes) => Some(bytes.as_slice()),
            None => None,
        }
    }
}

impl Link for TapeLink {
    ghost taken = { λ l. Some l.taken };

    ghost given = { λ l. Some l.given };

    ghost faults = { λ l. l.faults };

    ghost ends = { λ l. l.ends };

    ghost nothings = { λ l. l.nothings };

    #[tactic(auto, using(crate::proofs::Plays::opens_begun, crate::proofs::Plays::opens_refused, crate::proofs::Plays::opens_none, crate::proofs::Plays::advance_none))]
    fn open(&mut self, _to: &str) -> Result<(), Fault>
        ensures taken { Some self.new.taken ≡ after_open (Some self.old.taken) result }
        ensures given { Some self.new.given ≡ after_open (Some self.old.given) result }
        ensures cause { self.new.faults ≡ counted result self.old.faults }
        ensures ends { self.new.ends ≡ self.old.ends }
        ensures nothings { self.new.nothings ≡ self.old.nothings }

        // The tape goes on behind its next opening.
        ensures begun { OnOk result ((true, self.new.left) ≡ opens self.old.left) }
        ensures room { OnOk result (self.new.room ≡ room_at self.new.left) }
        ensures failed { IsErrOf result Fault.Failed → (false, self.new.left) ≡ opens self.old.left }
        ensures kept { OnErr result (self.new.room ≡ self.old.room) }
        ensures memory { IsErrOf result Fault.NoMemory → self.new ≡ self.old }

        // A call that fails is counted, and no other.
        ensures counted { IsErrOf result Fault.Failed → counts self.new ≡ with_fault (counts self.old) }
        ensures uncounted { OnOk result (counts self.new ≡ counts self.old) }
    {
        let next = next_opening(self.items.as_slice(), self.at);
        match self.items.get(next) {
            Some(Item::Open) => {
                begin(self.alloc, &mut self.taken, &mut self.given)?;
                self.room = room_at(self.items.as_slice(), next + 1);
                self.at = next + 1;
                self.played = 0;
                Ok(())
            }
            Some(_) => {
                self.at = next_opening(self.items.as_slice(), next + 1);
                self.played = 0;
                self.faults = self.faults.saturating_add(1);
                Err(Fault::Failed)
            }
            None => {
                self.at = next;
                self.played = 0;
                self.faults = self.faults.saturating_add(1);
                Err(Fault::Failed)
            }
        }
    }

    fn send(&mut self, bytes: &[u8]) -> Result<usize, Fault>
        requires { 0 < length bytes.now }
        ensures bound { WritesAtMost result bytes.now }
        ensures some { IfOk result (λ n. 0 < n) }
        ensures taken { Some self.new.taken ≡ after_send (Some self.old.taken) result bytes.now }
        ensures given { Some self.new.given ≡ Some self.old.given }
        ensures cause { self.new.faults ≡ counted result self.old.faults }
        ensures ends { self.new.ends ≡ self.old.ends }
        ensures nothings { self.new.nothings ≡ self.old.nothings }

        // As much is taken as there is room for.
        ensures fits { IfOk result (λ n. n ≡ fitting self.old.room (length bytes.now)) }
        ensures room { IfOk result (λ n. self.new.room ≡ room_behind self.old.room n) }
        ensures failed { IsErrOf result Fault.Failed → fitting self.old.room (length bytes.now) ≡ 0 }
        ensures left { self.new.left ≡ self.old.left }
        ensures kept { OnErr result (self.new.room ≡ self.old.room) }
        ensures memory { IsErrOf result Fault.NoMemory → self.new ≡ self.old }

        // A call that fails is counted, and no other.
        ensures counted { IsErrOf result Fault.Failed → counts self.new ≡ with_fault (counts self.old) }
        ensures uncounted { OnOk result (counts self.new ≡ counts self.old) }
    {
        let count = match self.room {
            Some(room) if room < bytes.len() as u64 => room as usize,
            Some(_) | None => bytes.len(),
        };
        if count == 0 {
            self.faults = self.faults.saturating_add(1);
            return Err(Fault::Failed);
        }
        append_last(&mut self.taken, &bytes[..count])?;
        if let Some(room) = self.room {
            self.room = Some(room.saturating_sub(count as u64));
        }
        Ok(count)
    }

    #[tactic(auto, using(crate::proofs::Plays::advance_none, crate::proofs::Plays::hear_left, crate::proofs::Plays::quiet_left))]
    fn recv(&mut self, buf: &mut [u8]) -> Result<Heard, Fault>
        requires { 0 < length buf.old }
        ensures bound { FitsIn result buf.new }
        ensures taken { Some self.new.taken ≡ Some self.old.taken }
        ensures given { Some self.new.given ≡ after_recv (Some self.old.given) result buf.new }
        ensures cause { self.new.faults ≡ counted result self.old.faults }
        ensures ends { self.new.ends ≡ ended result self.old.ends }
        ensures nothings { self.new.nothings ≡ silent result self.old.nothings }

        // What comes is the next item, as far as it fits.
        ensures heard { IfOk result (λ h. (Some h, self.new.left) ≡ hears (length buf.old) self.old.left) }
        ensures front { IfOk result (λ h. IsFrontOf h buf.new (present self.old.left)) }
        ensures failed { IsErrOf result Fault.Failed → (None, self.new.left) ≡ hears (length buf.old) self.old.left }
        ensures room { self.new.room ≡ self.old.room }
        ensures memory { IsErrOf result Fault.NoMemory → self.new ≡ self.old }

        // A receive that fails is counted, and so is one that finds the end or hears nothing; one that brings bytes isn't.
        ensures counted { IsErrOf result Fault.Failed → counts self.new ≡ with_fault (counts self.old) }
        ensures ended { result ≡ Ok Heard.End → counts self.new ≡ with_end (counts self.old) }
        ensures idle { result ≡ Ok Heard.Nothing → counts self.new ≡ with_nothing (counts self.old) }
        ensures uncounted { (n : ℕ) → result ≡ Ok (Heard.Bytes n) → counts self.new ≡ counts self.old }
    {
        let (at, played) = next_item(self.items.as_slice(), self.at, self.played);
        match self.items.get(at) {
            Some(Item::Hear(bytes)) => {
                let count = front_of(bytes.as_slice(), played, buf);
                append_last(&mut self.given, &buf[..count])?;
                self.at = at;
                self.played = played + count as u64;
                Ok(Heard::Bytes(count))
            }
            Some(Item::Quiet(count)) => {
                self.at = at;
                self.played = one_more(played, *count);
                self.nothings = self.nothings.saturating_add(1);
                Ok(Heard::Nothing)
            }
            Some(Item::Fail) => {
                self.at = at + 1;
                self.played = 0;
                self.faults = self.faults.saturating_add(1);
                Err(Fault::Failed)
            }
            Some(Item::End) => {
                self.at = at + 1;
                self.played = 0;
                self.ends = self.ends.saturating_add(1);
                Ok(Heard::End)
            }
            Some(Item::Open | Item::Refuse | Item::Room(_)) | None => {
                self.at = at;
                self.played = played;
                self.ends = self.ends.saturating_add(1);
                Ok(Heard::End)
            }
        }
    }

    #[tactic(auto, using(crate::proofs::Plays::advance_none, crate::proofs::Plays::closed_advance))]
    fn shut(&mut self)
        ensures taken { Some self.new.taken ≡ Some self.old.taken }
        ensures given { Some self.new.given ≡ Some self.old.given }
        ensures faults { self.new.faults ≡ self.old.faults }
        ensures ends { self.new.ends ≡ self.old.ends }
        ensures nothings { self.new.nothings ≡ self.old.nothings }

        // What the connection left unused is gone, and it takes nothing more.
        ensures left { self.new.left ≡ closed self.old.left }
        ensures room { self.new.room ≡ Some 0 }
        ensures uncounted { counts self.new ≡ counts self.old }
    {
        self.at = next_opening(self.items.as_slice(), self.at);
        self.played = 0;
        self.room = Some(0);
    }
}

/// One more of so many receives.
fn one_more(played: u64, count: u64) -> u64
    requires { played < count }
    ensures { result ≡ played + 1 }
{
    played + 1
}
