//! The tape of a broker, read from its text.

ghost use Rattle.std.specs.Prelude.{◌≡◌, ℕ, ◌+◌, length};
ghost use Rattle.plain_text.specs.Reading.{Gives};
ghost use Rattle.broker_tape.specs.Tape as tapes;
ghost use Rattle.broker_tape.specs.TapeReading.{Tells, IsLineWithin};

use list_types::{Blob, Seq};
use plain_text::{Refusal, is_passed, last_at, line_at, number_in, payload_of, word_at};
use std::alloc::{AllocFailed, Global};

/// One line of a tape.
#[derive(Debug, Drop)]
pub enum Item {
    /// A connection begins.
    Open,
    /// An opening fails.
    Refuse,
    /// The connection takes so many bytes in all, and then each send fails.
    Room(u64),
    /// It gives these bytes.
    Hear(Blob),
    /// So many receives hear nothing.
    Quiet(u64),
    /// The connection ends.
    End,
    /// A receive fails.
    Fail,
}

/// The items of a tape, in order.
pub type Tape = Seq<Item>;

/// Why a text is no tape.
#[derive(Clone, Copy, Debug, PartialEq, Eq)]
pub enum TapeFault {
    /// The first line that isn't in the grammar, counted from 1.
    Line(u64),
    /// Memory ran out.
    NoMemory,
}

impl<T: Drop> From<AllocFailed<T>> for TapeFault {
    ghost use Rattle.broker_tape.specs.declared.tape.TapeFault.TheVariants.{NoMemory};

    ghost from_gives = { λ _ e. e ≡ NoMemory };

    fn from(_: AllocFailed<T>) -> TapeFault {
        TapeFault::NoMemory
    }
}

/// Where a line stands in a tape.
#[derive(Clone, Copy, Debug, PartialEq, Eq)]
enum Place {
    /// No connection is there: at the start, and behind one that ended or an opening that failed.
    Between,
    /// Directly behind `open`.
    Begun,
    /// Further on in a connection.
    Within,
}

/// The bytes that one `hear` may have.
const HEAR_LIMIT: usize = 4096;

/// The greatest number of bytes that a `room` may say, and of receives that a `quiet` may.
const COUNT_LIMIT: u64 = 1_000_000_000;

/// The tape that a text spells. A line is `open`; behind it at once may stand `room N`; then come any number of
/// `hear HEX` and `quiet N`; `end` or `fail`, or else the next `open`, ends the connection. Where no connection is
/// there, `fail` is an opening that fails. Empty lines and those that begin with `#` may stand anywhere.
#[tactic(auto, using(crate::proofs::Tapes::line_passed, crate::proofs::Tapes::line_read, crate::proofs::Tapes::line_refused, crate::proofs::Tapes::tape_end))]
pub fn read_tape(alloc: Global, text: &[u8]) -> Result<Tape, TapeFault>
    ensures tape { Tells result (tapes.tape_of text.now) }
    ensures small { IsLineWithin (length text.now + 1) result }
{
    let mut items = Tape::new(alloc);
    let mut place = Place::Between;
    let mut number: u64 = 1;
    let mut at = 0;
    'lines: while at < text.len() {
        let (line, next) = line_at(text, at);
        if !is_passed(line) {
            match item_in(alloc, place, line) {
                Ok(item) => {
                    place = place_behind(&item);
                    items.push(item)?;
                }
                Err(Refusal::Bad) => return Err(TapeFault::Line(number)),
                Err(Refusal::NoMemory) => return Err(TapeFault::NoMemory),
            }
        }
        number += 1;
        at = next;
    }
    Ok(items)
}

fn item_in(alloc: Global, place: Place, line: &[u8]) -> Result<Item, Refusal>
    ensures { Gives (λ item. item) result (tapes.item_in place line.now) }
{
    match place {
        Place::Between => opening_item(line).ok_or(Refusal::Bad),
        Place::Begun => connection_item(alloc, true, line),
        Place::Within => connection_item(alloc, false, line),
    }
}

fn place_behind(item: &Item) -> Place
    ensures { result ≡ tapes.place_behind item.now }
{
    match item {
        Item::Open => Place::Begun,
        Item::Room(_) | Item::Hear(_) | Item::Quiet(_) => Place::Within,
        Item::Refuse | Item::End | Item::Fail => Place::Between,
    }
}

/// A line where no connection is there.
#[tactic(auto, unfolding(crate::specs::Tape::opening_item))]
fn opening_item(line: &[u8]) -> Option<Item>
    ensures { result ≡ tapes.opening_item line.now }
{
    if line == b"open".as_slice() {
        Some(Item::Open)
    } else if line == b"fail".as_slice() {
        Some(Item::Refuse)
    } else {
        None
    }
}

/// A line within a connection, which may still say its room where it has just begun.
#[tactic(auto, unfolding(crate::specs::Tape::connection_item))]
fn connection_item(alloc: Global, begun: bool, line: &[u8]) -> Result<Item, Refusal>
    ensures { Gives (λ item. item) result (tapes.connection_item begun line.now) }
{
    if line == b"open".as_slice() {
        Ok(Item::Open)
    } else if line == b"end".as_slice() {
        Ok(Item::End)
    } else if line == b"fail".as_slice() {
        Ok(Item::Fail)
    } else {
        let (verb, rest) = word_at(line).ok_or(Refusal::Bad)?;
        let word = last_at(rest).ok_or(Refusal::Bad)?;
        counted_item(alloc, begun, verb, word)
    }
}

fn counted_item(alloc: Global, begun: bool, verb: &[u8], word: &[u8]) -> Result<Item, Refusal>
    ensures { Gives (λ item. item) result (tapes.counted_item begun verb.now word.now) }
{
    if verb == b"hear".as_slice() {
        hear_of(alloc, word)
    } else if verb == b"quiet".as_slice() {
        quiet_of(word).ok_or(Refusal::Bad)
    } else if begun && verb == b"room".as_slice() {
        room_of(word).ok_or(Refusal::Bad)
    } else {
        Err(Refusal::Bad)
    }
}

#[tactic(auto, unfolding(crate::specs::Tape::hear_of))]
fn hear_of(alloc: Global, word: &[u8]) -> Result<Item, Refusal>
    ensures { Gives (λ item. item) result (tapes.hear_of word.now) }
{
    let bytes = payload_of(alloc, word)?;
    if bytes.is_empty() || bytes.len() > HEAR_LIMIT {
        return Err(Refusal::Bad);
    }
    Ok(Item::Hear(bytes))
}

#[tactic(auto, unfolding(crate::specs::Tape::quiet_of))]
fn quiet_of(word: &[u8]) -> Option<Item>
    ensures { result ≡ tapes.quiet_of word.now }
{
    Some(Item::Quiet(number_in(1, COUNT_LIMIT, word)?))
}

#[tactic(auto, unfolding(crate::specs::Tape::room_of))]
fn room_of(word: &[u8]) -> Option<Item>
    ensures { result ≡ tapes.room_of word.now }
{
    Some(Item::Room(number_in(0, COUNT_LIMIT, word)?))
}
