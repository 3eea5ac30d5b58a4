//! The document: a version, and values by key.

ghost use Rattle.std.specs.Prelude.{◌≡◌, ◌≤◌, length, find, position, IfOk, OnOk, option_copied};
ghost use Rattle.std.specs.List.{position_or_len};
ghost use Rattle.shadow_mirror.specs.Documents as documents;
ghost use Rattle.shadow_mirror.specs.Documents.{blank, changed, value_in, value_of};

use device_docs::{Change, Scalar};
use list_types::{Copied, Text};
use std::alloc::{AllocError, Global};
use std::marker::Model;

/// A shadow's document. Contracts see its version and its entries, a value for each key, in the order of the keys' bytes.
#[derive(Debug, Drop)]
pub struct Document {
    alloc: Global,
    version: u64,
    entries: Vec<(Text, Scalar)>,
}

impl Model for Document {
    ghost use Rattle.shadow_mirror.specs.Documents.{Doc};

    ghost Value = { Doc };

    ghost view = { λ d. record { version = d.version; entries = d.entries.items } };
}

impl Document {
    /// The empty document, of version 0. It takes no memory yet.
    pub(crate) fn blank(alloc: Global) -> Document
        ensures { result ≡ blank }
    {
        Document {
            alloc,
            version: 0,
            entries: Vec::new(alloc),
        }
    }

    pub fn version(&self) -> u64
        ensures { result ≡ self.now.version }
    {
        self.version
    }

    /// The keys with their values, in the order of the keys' bytes.
    pub fn entries(&self) -> &[(Text, Scalar)]
        ensures { result.now ≡ self.now.entries }
    {
        self.entries.as_slice()
    }

    /// A copy of the value of a key, where the document has it. An error is want of memory.
    pub(crate) fn value(&self, key: &str) -> Result<Option<Scalar>, AllocError>
        ensures { IfOk result (λ value. value ≡ value_of self.now key.now) }
    {
        match value_at(self.entries.as_slice(), key) {
            Some(value) => Ok(Some(copy_scalar(self.alloc, value)?)),
            None => Ok(None),
        }
    }

    /// A copy. An error is want of memory.
    pub(crate) fn copy(&self) -> Result<Document, AllocError>
        ensures { IfOk result (λ copy. copy ≡ self.now) }
    {
        Ok(Document {
            alloc: self.alloc,
            version: self.version,
            entries: copy_entries(self.alloc, self.entries.as_slice())?,
        })
    }

    /// Makes of the document what a change makes of it. An error is want of memory, and leaves a document with a part of the change.
    pub(crate) fn change(&mut self, change: &Change) -> Result<(), AllocError>
        ensures { OnOk result (self.new ≡ changed self.old change.now) }
    {
        if self.version < change.version {
            set_all(self.alloc, &mut self.entries, change.sets.as_slice())?;
            self.version = change.version;
        }
        Ok(())
    }
}

fn value_at<'a>(entries: &'a [(Text, Scalar)], key: &str) -> Option<&'a Scalar>
    ensures { option_copied result ≡ value_in entries.now key.now }
{
    Some(&entry_at(entries, key)?.1)
}

fn entry_at<'a>(entries: &'a [(Text, Scalar)], key: &str) -> Option<&'a (Text, Scalar)>
    ensures { option_copied result ≡ find (documents.has_key key.now) entries.now }
{
    entries.iter().find(|entry| has_key(entry, key))
}

fn has_key(entry: &(Text, Scalar), key: &str) -> bool
    ensures { result ≡ documents.has_key key.now entry.now }
{
    entry.0.as_str() == key
}

/// An exact copy.
fn copy_scalar(alloc: Global, value: &Scalar) -> Result<Scalar, AllocError>
    ensures { IfOk result (λ copy. copy ≡ value.now) }
{
    match value {
        Scalar::Word(word) => Ok(Scalar::Word(word.copy(alloc)?)),
        Scalar::Int(number) => Ok(Scalar::Int(*number)),
        Scalar::Flag(flag) => Ok(Scalar::Flag(*flag)),
    }
}

fn copy_entries(alloc: Global, source: &[(Text, Scalar)]) -> Result<Vec<(Text, Scalar)>, AllocError>
    ensures { IfOk result (λ copy. copy.items ≡ source.now) }
{
    let mut entries = Vec::with_capacity(alloc, source.len())?;
    for entry in source {
        let key = entry.0.copy(alloc)?;
        entries.push((key, copy_scalar(alloc, &entry.1)?))?;
    }
    Ok(entries)
}

fn set_all(
    alloc: Global,
    entries: &mut Vec<(Text, Scalar)>,
    sets: &[(Text, Option<Scalar>)],
) -> Result<(), AllocError>
    ensures { OnOk result (entries.new.items ≡ documents.set_all entries.old.items sets.now) }
{
    for set in sets {
        set_one(alloc, entries, set)?;
    }
    Ok(())
}

/// Gives a key its value, or removes it.
fn set_one(
    alloc: Global,
    entries: &mut Vec<(Text, Scalar)>,
    set: &(Text, Option<Scalar>),
) -> Result<(), AllocError>
    ensures { OnOk result (entries.new.items ≡ documents.set_one entries.old.items set.now) }
{
    let key = set.0.as_str();
    remove(entries, key);
    match &set.1 {
        Some(value) => place(entries, set.0.copy(alloc)?, copy_scalar(alloc, value)?),
        None => Ok(()),
    }
}

fn remove(entries: &mut Vec<(Text, Scalar)>, key: &str)
    ensures { entries.new.items ≡ documents.without key.now entries.old.items }
{
    entries.retain(|entry| !has_key(entry, key));
}

/// Puts a key in its place.
fn place(entries: &mut Vec<(Text, Scalar)>, key: Text, value: Scalar) -> Result<(), AllocError>
    ensures { OnOk result (entries.new.items ≡ documents.placed key value entries.old.items) }
{
    let at = place_of(entries.as_slice(), key.as_str());
    entries.insert(at, (key, value))?;
    Ok(())
}

/// Where a key goes: before the first that comes behind it, or at the end.
#[tactic(auto, using(crate::proofs::Places::place_found, crate::proofs::Places::place_at_end, crate::proofs::Places::place_within))]
fn place_of(entries: &[(Text, Scalar)], key: &str) -> usize
    ensures place { result ≡ position_or_len (documents.is_before key.now) entries.now }
    ensures within { result ≤ length entries.now }
{
    match first_behind(entries, key) {
        Some(at) => at,
        None => entries.len(),
    }
}

fn first_behind(entries: &[(Text, Scalar)], key: &str) -> Option<usize>
    ensures { result ≡ position (documents.is_before key.now) entries.now }
{
    entries.iter().position(|entry| is_before(key, entry))
}

fn is_before(key: &str, entry: &(Text, Scalar)) -> bool
    ensures { result ≡ documents.is_before key.now entry.now }
{
    key.as_bytes().cmp(entry.0.as_bytes()).is_lt()
}
