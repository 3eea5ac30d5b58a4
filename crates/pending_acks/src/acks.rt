//! The list of the open commands.

ghost use Rattle.std.specs.Prelude.{◌≡◌, ◌<◌, ◌≤◌, ◌==◌, [], ◌∷◌, ◌++◌, length, filter, find, slice_get, false, not, IfOk};
ghost use Rattle.std.specs.Bool.{OnFalse};
ghost use Rattle.std.specs.List.{list_any};
ghost use Rattle.std.specs.Option.{option_copied};
ghost use Rattle.pending_acks.specs.Commands.{Differ, has_id, is_command, others};

use crate::pending::Pending;
use ordered_cells::KeyedCells;
use std::alloc::{AllocError, Global};
use std::marker::Model;

/// At most ACKS open commands, no two of one identifier, in the order in which they were added.
/// Contracts see the list of them. ACKS is 1 to 1,024. Only `new` takes memory.
///
/// They stand in ACKS cells and don't move. An identifier is looked for in one cell, and besides in those
/// alone whose identifiers aren't at home there (`KeyedCells`); `find_command` goes over all commands.
#[derive(Debug, Drop)]
pub struct PendingAcks<const ACKS: usize> {
    commands: KeyedCells<Pending, ACKS>,
}

impl<const ACKS: usize> Model for PendingAcks<ACKS> {
    ghost use Rattle.std.specs.Prelude.{List};
    ghost use Rattle.agent_journal.specs.Readings.{Pending as Command};

    ghost Value = { List Command };

    ghost view = { λ p. p.commands };
}

impl<const ACKS: usize> PendingAcks<ACKS> {
    /// No command. `Err` where memory runs out.
    pub fn new(alloc: Global) -> Result<Self, AllocError>
        requires size { (0 < ACKS) × (ACKS ≤ 1024) }
        ensures { IfOk result (λ commands. commands ≡ []) }
    {
        Ok(PendingAcks {
            commands: KeyedCells::new(alloc)?,
        })
    }

    /// Whether ACKS commands are there. Otherwise there is room for one more.
    pub fn is_full(&self) -> bool
        ensures full { result ≡ (length self.now == ACKS) }
        ensures room { OnFalse result (length self.now < ACKS) }
    {
        self.commands.is_full()
    }

    /// How many commands are there. They are at most ACKS, and no two of them have one identifier.
    pub fn len(&self) -> usize
        ensures count { result ≡ length self.now }
        ensures most { result ≤ ACKS }
        ensures differ { Differ self.now }
    {
        self.commands.len()
    }

    pub fn is_empty(&self) -> bool
        ensures { result ≡ (length self.now == 0) }
    {
        self.commands.is_empty()
    }

    /// Adds a command behind all others.
    pub fn add(&mut self, command: Pending)
        requires room { length self.old < ACKS }
        requires fresh { list_any (has_id command.id) self.old ≡ false }
        ensures { self.new ≡ self.old ++ command ∷ [] }
    {
        self.commands.push(command);
    }

    /// Takes the command of an identifier out, and the others keep their order. `None`, and nothing
    /// has changed, where there is no such command.
    pub fn take(&mut self, id: u16) -> Option<Pending>
        ensures taken { result ≡ find (has_id id) self.old }
        ensures others { self.new ≡ others id self.old }
    {
        self.commands.take(id)
    }

    /// The command at place `k`, counted from 0 in the order in which they were added.
    pub fn get(&self, k: usize) -> Option<&Pending>
        ensures { option_copied result ≡ slice_get self.now k }
    {
        self.commands.get(k)
    }

    /// The command of an identifier.
    pub fn find(&self, id: u16) -> Option<&Pending>
        ensures found { option_copied result ≡ find (has_id id) self.now }
        ensures differ { Differ self.now }
    {
        self.commands.find(id)
    }

    /// The command that a task submitted with this number.
    pub fn find_command(&self, task: u32, seq: u32) -> Option<&Pending>
        ensures { option_copied result ≡ find (is_command task seq) self.now }
    {
        self.commands
            .find_by(|command| command.task == task && command.seq == seq)
    }

    /// Whether there is a command of this identifier.
    pub fn has(&self, id: u16) -> bool
        ensures { result ≡ list_any (has_id id) self.now }
    {
        self.commands.has(id)
    }
}
