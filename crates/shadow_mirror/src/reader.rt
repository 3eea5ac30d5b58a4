//! A reader: each of its reads gives the document of some published changes, which begin with all that it had seen and was told of.

ghost use Rattle.std.specs.Prelude.{◌≡◌, IfOk, IfSome, IsSomeAnd};
ghost use mathlib.Core.List.{IsPrefix};
ghost use Rattle.left_right.specs.Sides.{view};
ghost use Rattle.shadow_mirror.specs.Documents.{doc, value_of};
ghost use Rattle.shadow_mirror.specs.Known.{known_of};

use crate::history::History;
use crate::known::Known;
use crate::page::{OneHistory, Page, Sees};
use device_docs::Scalar;
use left_right::reader::Reader;
use std::alloc::AllocError;
use std::marker::Model;
use std::sync::Wait;

/// What a writer tells its readers: all that was published. Contracts see these changes, with the name of their mirror's history.
#[derive(Drop)]
pub struct Told {
    history: History,
}

impl Model for Told {
    ghost use Rattle.shadow_mirror.specs.Pasts.{Past};

    ghost Value = { Past };

    ghost view = { λ t. t.history };
}

impl Told {
    pub(crate) fn new(history: History) -> Told
        ensures { result ≡ history }
    {
        Told { history }
    }
}

/// A reader of a mirror. Contracts see the changes behind its last read, and the longest list that it was told of.
#[derive(Drop)]
pub struct MirrorReader {
    reader: Option<Reader<Page, Known, OneHistory>>,
    seen: History,
    told: History,
}

impl Model for MirrorReader {
    ghost use Rattle.std.specs.Prelude.{◌≡◌, IsSomeAnd};
    ghost use Rattle.left_right.specs.Sides as sides;
    ghost use Rattle.shadow_mirror.specs.Known.{known_of};
    ghost use Rattle.shadow_mirror.specs.Readers.{Reading};

    ghost Value = { Reading };

    ghost view = { λ r. record { book = r.seen.book; seen = r.seen.changes; told = r.told.changes } };

    ghost invariant = { λ r. (r.told.book ≡ r.seen.book) × IsSomeAnd r.reader (λ x. sides.view x.place ≡ known_of r.seen.book) };
}

/// What a look at the page finds: version and value, and the changes that they come of.
#[derive(Drop)]
struct Found {
    version: u64,
    value: Result<Option<Scalar>, AllocError>,
    us: History,
}

impl MirrorReader {
    /// A reader that has seen these changes.
    pub(crate) fn new(reader: Reader<Page, Known, OneHistory>, history: &History) -> MirrorReader
        requires { view reader.place ≡ known_of history.now.book }
        ensures { result ≡ record { book = history.now.book; seen = history.now.changes; told = history.now.changes } }
    {
        MirrorReader {
            reader: Some(reader),
            seen: history.again(),
            told: history.again(),
        }
    }

    /// What is told is one more list that this reader was told of: each later read comes of changes that begin with it.
    pub fn learn(&mut self, told: Told)
        requires of_this_mirror { told.book ≡ self.old.book }
        ensures book { self.new.book ≡ self.old.book }
        ensures seen { self.new.seen ≡ self.old.seen }
        ensures before { IsPrefix self.old.told self.new.told }
        ensures told { IsPrefix told.changes self.new.told }
    {
        self.told = self.told.longer(&told.history);
    }

    /// The document's version and the value of a key, behind the changes that are seen then. They begin with all
    /// that this reader had seen and was told of. An error is want of memory for the value; these changes are seen all the same.
    pub fn read<R: Wait>(&mut self, rt: &R, key: &str) -> Result<(u64, Option<Scalar>), AllocError>
        ensures version { IfOk result (λ found. found.0 ≡ (doc self.new.seen).version) }
        ensures value { IfOk result (λ found. found.1 ≡ value_of (doc self.new.seen) key.now) }
        ensures seen { IsPrefix self.old.seen self.new.seen }
        ensures told { IsPrefix self.old.told self.new.seen }
        ensures kept { (self.new.book ≡ self.old.book) × (self.new.told ≡ self.old.told) }
    {
        let reader = self.reader.take().unwrap();
        let (reader, found) = look_until(rt, reader, &self.seen, &self.told, key);
        self.reader = Some(reader);
        self.seen = found.us;
        Ok((found.version, found.value?))
    }
}

/// Looks at the page until it is let in and the page isn't behind what was seen and told.
fn look_until<R: Wait>(
    rt: &R,
    reader: Reader<Page, Known, OneHistory>,
    seen: &History,
    told: &History,
    key: &str,
) -> (Reader<Page, Known, OneHistory>, Found)
    requires known { (told.now.book ≡ seen.now.book) × (view reader.place ≡ known_of seen.now.book) }
    ensures known { (result.1.us.book ≡ seen.now.book) × (view result.0.place ≡ known_of seen.now.book) }
    ensures begins { IsPrefix seen.now.changes result.1.us.changes × IsPrefix told.now.changes result.1.us.changes }
    ensures version { result.1.version ≡ (doc result.1.us.changes).version }
    ensures value { IfOk result.1.value (λ value. value ≡ value_of (doc result.1.us.changes) key.now) }
{
    let mut reader = reader;
    for _ in rt.forever() {
        let (back, found) = look(reader, seen, told, key);
        reader = back;
        if let Some(found) = found {
            return (reader, found);
        }
    }
    unreachable!()
}

/// One look at the page. `None` where it is refused, or the page is behind what was seen or told.
fn look(
    reader: Reader<Page, Known, OneHistory>,
    seen: &History,
    told: &History,
    key: &str,
) -> (Reader<Page, Known, OneHistory>, Option<Found>)
    requires known { (told.now.book ≡ seen.now.book) × (view reader.place ≡ known_of seen.now.book) }
    ensures known { view result.0.place ≡ known_of seen.now.book }
    ensures book { IfSome result.1 (λ found. found.us.book ≡ seen.now.book) }
    ensures begins { IfSome result.1 (λ found. IsPrefix seen.now.changes found.us.changes × IsPrefix told.now.changes found.us.changes) }
    ensures version { IfSome result.1 (λ found. found.version ≡ (doc found.us.changes).version) }
    ensures value { IfSome result.1 (λ found. IfOk found.value (λ value. value ≡ value_of (doc found.us.changes) key.now)) }
{
    match reader.enter_as::<Sees>() {
        Ok(reading) => {
            let found = find(reading.get(), seen, told, key);
            (reading.leave(), found)
        }
        Err(reader) => (reader, None),
    }
}

fn find(page: &Page, seen: &History, told: &History, key: &str) -> Option<Found>
    requires book { (told.now.book ≡ seen.now.book) × (page.now.book ≡ seen.now.book) }
    ensures book { IfSome result (λ found. found.us.book ≡ seen.now.book) }
    ensures begins { IfSome result (λ found. IsPrefix seen.now.changes found.us.changes × IsPrefix told.now.changes found.us.changes) }
    ensures version { IfSome result (λ found. found.version ≡ (doc found.us.changes).version) }
    ensures value { IfSome result (λ found. IfOk found.value (λ value. value ≡ value_of (doc found.us.changes) key.now)) }
{
    if seen.begins(page.history()) && told.begins(page.history()) {
        Some(Found {
            version: page.document().version(),
            value: page.document().value(key),
            us: page.history().again(),
        })
    } else {
        None
    }
}
