//! The writer: changes are noted, and published all at once.

ghost use Rattle.std.specs.Prelude.{◌≡◌, ◌<◌, ◌≤◌, ◌++◌, ◌∷◌, [], List, length, IfOk, OnOk, OnErr, IfErr, IsSome, Some, fold, take, replicate};
ghost use Rattle.device_docs.specs.declared.changes.Change.{Change};
ghost use Rattle.left_right.specs.Sides.{view};
ghost use Rattle.shadow_mirror.specs.Documents.{changed, doc};
ghost use Rattle.shadow_mirror.specs.Known.{known_of};
ghost use Rattle.shadow_mirror.specs.Writers.{or_else};

use crate::document::Document;
use crate::history::{Head, History, open};
use crate::known::Known;
use crate::page::{OneHistory, Page, Sees};
use crate::reader::{MirrorReader, Told};
use atomic_table::{Join, Split};
use device_docs::Change;
use left_right::writer::Writer;
use std::alloc::{AllocError, Global};
use std::marker::Model;
use std::mem;
use std::sync::Wait;

/// How many changes a mirror may publish.
const MOST: u64 = 1 << 40;

/// The writer of a mirror. Contracts see the changes that are published, with the name of the mirror's history, and those that wait.
pub struct MirrorWriter {
    writer: Option<Writer<Page, Page, Known, OneHistory>>,
    head: Head,
    /// The published changes, and behind them the first `logged` of the pending ones.
    history: History,
    pending: Vec<Change>,
    logged: usize,
}

impl Model for MirrorWriter {
    ghost use Rattle.std.specs.Prelude.{◌≡◌, ◌≤◌, ◌++◌, length, take, Some, IsSomeAnd};
    ghost use Rattle.left_right.specs.Sides as sides;
    ghost use Rattle.shadow_mirror.specs.Known.{known_of};
    ghost use Rattle.shadow_mirror.specs.Writers.{Writing, or_else};

    ghost Value = { Writing };

    ghost view = { λ w. record { published = or_else w.history w.writer (λ x. x.desk.shown.value); pending = w.pending.items } };

    ghost invariant = { λ w. (w.logged ≤ length w.pending.items) × (w.head ≡ w.history.book)
        × IsSomeAnd w.writer (λ x. (sides.view x.desk.place ≡ known_of w.history.book) × (x.desk.shown.value.book ≡ w.history.book) × (w.history.changes ≡ x.desk.shown.value.changes ++ take w.logged w.pending.items)) };
}

impl MirrorWriter {
    /// The change is the last of the pending ones. Where memory runs out it comes back, and nothing has changed.
    pub fn note(&mut self, change: Change) -> Result<(), (Change, AllocError)>
        ensures ok { OnOk result (self.new ≡ record self.old { pending = self.old.pending ++ change ∷ [] }) }
        ensures err { IfErr result (λ e. (e.0 ≡ change) × (self.new ≡ self.old)) }
    {
        match self.pending.push(change) {
            Ok(()) => Ok(()),
            Err(e) => Err((e.value, AllocError)),
        }
    }

    /// The pending changes are published, in order and all at once. An error is want of memory, or that 2^40 changes were
    /// published before: nothing is published, and all of them stay pending.
    pub fn publish<R: Wait>(&mut self, rt: &R) -> Result<(), AllocError>
        ensures ok { OnOk result ((self.new.published.changes ≡ self.old.published.changes ++ self.old.pending) × (self.new.pending ≡ [])) }
        ensures book { self.new.published.book ≡ self.old.published.book }
        ensures err { OnErr result (self.new ≡ self.old) }
    {
        let document = next_document(&self.writer, self.pending.as_slice())?;
        log_all(
            &mut self.history,
            &self.head,
            self.pending.as_slice(),
            &mut self.logged,
        )?;
        let page = Page::new(document, self.history.again());
        let (writer, result) = show(rt, self.writer.take().unwrap(), page);
        put_back(rt, &mut self.writer, writer);
        result?;
        self.pending.clear();
        self.logged = 0;
        Ok(())
    }

    /// All that is published, for readers to learn.
    pub fn tell(&mut self) -> Told
        ensures same { self.new ≡ self.old }
        ensures told { result ≡ self.old.published }
    {
        Told::new(told_by(&self.writer, &self.history))
    }

    /// The document of all that is published.
    pub fn published(&self) -> &Document
        ensures { result.now ≡ doc self.now.published.changes }
    {
        self.writer.as_ref().unwrap().published().document()
    }

    /// Ends the mirror. Its readers still read the last published document.
    pub fn close<R: Wait>(self, rt: &R) {
        let MirrorWriter {
            writer,
            head: _head,
            history: _history,
            pending: _pending,
            logged: _,
        } = self;
        if let Some(writer) = writer {
            drop(writer.take(rt));
        }
    }
}

/// The published document behind the pending changes.
fn next_document(
    home: &Option<Writer<Page, Page, Known, OneHistory>>,
    pending: &[Change],
) -> Result<Document, AllocError>
    ensures { IfOk result (λ document. document ≡ fold changed (or_else (doc []) home.now (λ x. doc x.desk.shown.value.changes)) pending.now) }
{
    let mut document = match home {
        Some(writer) => writer.published().document().copy()?,
        None => return Err(AllocError),
    };
    change_all(&mut document, pending)?;
    Ok(document)
}

fn change_all(document: &mut Document, changes: &[Change]) -> Result<(), AllocError>
    ensures { OnOk result (document.new ≡ fold changed document.old changes.now) }
{
    for change in changes {
        document.change(change)?;
    }
    Ok(())
}

fn told_by(home: &Option<Writer<Page, Page, Known, OneHistory>>, history: &History) -> History
    ensures { result ≡ or_else history.now home.now (λ x. x.desk.shown.value) }
{
    match home {
        Some(writer) => writer.published().history().again(),
        None => history.again(),
    }
}

/// A writer can't be let go, so what stood there is ended.
fn put_back<R: Wait>(
    rt: &R,
    home: &mut Option<Writer<Page, Page, Known, OneHistory>>,
    writer: Writer<Page, Page, Known, OneHistory>,
)
    ensures { home.new ≡ Some writer }
{
    if let Some(old) = mem::replace(home, Some(writer)) {
        drop(old.take(rt));
    }
}

/// Readers take this page from now on.
fn show<R: Wait>(
    rt: &R,
    writer: Writer<Page, Page, Known, OneHistory>,
    next: Page,
) -> (
    Writer<Page, Page, Known, OneHistory>,
    Result<(), AllocError>,
)
    requires known { (view writer.desk.place ≡ known_of next.book) × (writer.desk.shown.value.book ≡ next.book) }
    ensures known { view result.0.desk.place ≡ known_of next.book }
    ensures ok { OnOk result.1 (result.0.desk.shown.value ≡ next) }
    ensures err { OnErr result.1 (result.0.desk.shown.value ≡ writer.desk.shown.value) }
{
    let mut writer = writer;
    if writer.append(next).is_err() {
        return (writer, Err(AllocError));
    }
    writer.publish_as::<Sees, R>(rt)
}

/// Puts the pending changes into the history.
fn log_all(
    history: &mut History,
    head: &Head,
    pending: &[Change],
    logged: &mut usize,
) -> Result<(), AllocError>
    requires { (logged.old ≤ length pending.now) × (head.now ≡ history.old.book) }
    ensures book { history.new.book ≡ history.old.book }
    ensures within { logged.new ≤ length pending.now }
    ensures more { (base : List Change) → history.old.changes ≡ base ++ take logged.old pending.now → history.new.changes ≡ base ++ take logged.new pending.now }
    ensures all { OnOk result (logged.new ≡ length pending.now) }
{
    while *logged < pending.len() {
        log_one(history, head, &pending[*logged])?;
        *logged += 1;
    }
    Ok(())
}

/// No other history has the writer's head, so its exchange always finds it as it was; no clause of the kit's log says so.
fn log_one(history: &mut History, head: &Head, change: &Change) -> Result<(), AllocError>
    requires { head.now ≡ history.old.book }
    ensures ok { OnOk result (history.new ≡ record history.old { changes = history.old.changes ++ change.now ∷ [] }) }
    ensures err { OnErr result (history.new ≡ history.old) }
{
    let mut next = history.again();
    if next.len() >= MOST || !next.push(head, change) {
        return Err(AllocError);
    }
    *history = next;
    Ok(())
}

/// The writer keeps what it knows, and the note has it too.
struct Copies;

impl Split<Known> for Copies {
    ghost left = { λ v. v };

    ghost right = { λ v. v };
}

struct Takes;

impl Join<Known> for Takes {
    ghost use Rattle.shadow_mirror.specs.declared.known.Known.TheVariants as known;

    ghost both = { λ _ w. w };

    ghost spent = { known.Nothing };
}

/// A writer and its readers, 1 to 8, over an empty document. An error is want of memory.
pub fn mirror<R: Wait>(
    rt: &R,
    alloc: Global,
    readers: u32,
) -> Result<(MirrorWriter, Vec<MirrorReader>), AllocError>
    requires { (0 < readers) × (readers ≤ 8) }
    ensures writer { IfOk result (λ made. (made.0.published.changes ≡ []) × (made.0.pending ≡ [])) }
    ensures readers { IfOk result (λ made. made.1.items ≡ replicate readers (record { book = made.0.published.book; seen = []; told = [] })) }
{
    let (head, history) = open();
    let first = Page::new(Document::blank(alloc), history.again());
    let second = Page::new(Document::blank(alloc), history.again());
    let writer = Writer::new(alloc, first, second, readers as usize)?;
    let (mut writer, shown) = writer.publish_as::<Sees, R>(rt);
    let made = match shown {
        Ok(()) => readers_of(alloc, &mut writer, &history, readers as usize),
        Err(e) => Err(e),
    };
    match made {
        Ok(all) => Ok((
            MirrorWriter {
                writer: Some(writer),
                head,
                history,
                pending: Vec::new(alloc),
                logged: 0,
            },
            all,
        )),
        Err(e) => {
            drop(writer.take(rt));
            Err(e)
        }
    }
}

fn readers_of(
    alloc: Global,
    writer: &mut Writer<Page, Page, Known, OneHistory>,
    history: &History,
    count: usize,
) -> Result<Vec<MirrorReader>, AllocError>
    requires { view writer.old.desk.place ≡ known_of history.now.book }
    ensures kept { (view writer.new.desk.place ≡ view writer.old.desk.place) × (writer.new.desk.shown ≡ writer.old.desk.shown) × (writer.new.log ≡ writer.old.log) × (writer.new.behind ≡ writer.old.behind) }
    ensures readers { IfOk result (λ all. all.items ≡ replicate count (record { book = history.now.book; seen = history.now.changes; told = history.now.changes })) }
{
    let mut all = Vec::with_capacity(alloc, count)?;
    for _ in 0..count {
        all.push(reader_of(writer, history)?)?;
    }
    Ok(all)
}

/// A reader that has seen these changes.
fn reader_of(
    writer: &mut Writer<Page, Page, Known, OneHistory>,
    history: &History,
) -> Result<MirrorReader, AllocError>
    requires { view writer.old.desk.place ≡ known_of history.now.book }
    ensures kept { (view writer.new.desk.place ≡ view writer.old.desk.place) × (writer.new.desk.shown ≡ writer.old.desk.shown) × (writer.new.log ≡ writer.old.log) × (writer.new.behind ≡ writer.old.behind) }
    ensures reader { IfOk result (λ reader. reader ≡ record { book = history.now.book; seen = history.now.changes; told = history.now.changes }) }
{
    let mut reader = writer.factory().reader()?;
    reader.learn::<Takes>(writer.tell::<Copies>());
    Ok(MirrorReader::new(reader, history))
}

fn crosses<T: Send>(_value: &T) {}

/// A reader, what it is told and a writer may go to another thread.
pub fn all_cross(reader: &MirrorReader, told: &Told, writer: &MirrorWriter) {
    crosses(reader);
    crosses(told);
    crosses(writer);
}
