//! The packets of a stream that comes in pieces.

ghost use Rattle.std.specs.Prelude.{◌≡◌, ◌≤◌, ◌<◌, ◌*◌, ◌++◌, ℕ, List, [], length, drop, None, Ok, IsOk, IfOk, IfSome, IfErr, OnOk, OnErr};
ghost use Rattle.mqtt_packet.specs.declared.packet.Packet.{Packet};
ghost use Rattle.mqtt_packet.specs.Splitting.{StandsFor, Tells, handed_with, told, IsKept, IsShortAt};
ghost use Rattle.mqtt_packet.specs.Steps.{next_of, fed_to};

use crate::front::{Front, Verdict, front_of};
use crate::packet::Packet;
use std::alloc::{AllocError, Global};
use std::marker::Model;

/// What a [`Splitter`] answers.
#[derive(Debug, Drop, PartialEq, Eq)]
pub enum Next {
    /// The next packet of the stream.
    Packet(Packet),
    /// The bytes so far hold no further packet.
    More,
    /// No packet begins at this offset, however the stream goes on.
    Bad { at: u64 },
    /// The packet at this offset would have so many bytes, which are more than
    /// [`PACKET_LIMIT`](crate::PACKET_LIMIT).
    TooLong { at: u64, len: u64 },
}

/// Takes a stream of bytes in pieces, and hands out its packets in order. Where the pieces are cut
/// makes no difference. It keeps at most twice as many bytes as it holds back: [`Splitter::kept`].
#[derive(Debug, Drop)]
pub struct Splitter {
    alloc: Global,
    /// Bytes that were fed; those before `start` are handed out. They are half of it at most.
    buffer: Vec<u8>,
    start: usize,
    /// The offset of `start` in the stream.
    at: u64,
    verdict: Option<Verdict>,
}

impl Model for Splitter {
    ghost use Rattle.std.specs.Prelude.{◌*◌, ◌≤◌, length, drop};
    ghost use Rattle.mqtt_packet.specs.Splitting.{Kept};

    ghost Value = { Kept };

    ghost view = { λ s. record { rest = drop s.start s.buffer.items; at = s.at; verdict = s.verdict } };

    ghost invariant = { λ s. 2 * s.start ≤ length s.buffer.items };
}

impl Splitter {
    /// A splitter of a stream of which nothing has come. It takes no memory yet.
    pub fn new(alloc: Global) -> Self
        ensures kept { result ≡ record { rest = []; at = 0; verdict = None } }
        ensures stands { StandsFor result [] [] }
    {
        Splitter {
            alloc,
            buffer: Vec::new(alloc),
            start: 0,
            at: 0,
            verdict: None,
        }
    }

    /// Adds a piece to the stream. Where memory runs out, nothing has changed. Behind a
    /// [`Next::Bad`] or [`Next::TooLong`] the piece is dropped.
    #[tactic(auto, using(crate::proofs::Stands::feed_on))]
    pub fn feed(&mut self, piece: &[u8]) -> Result<(), AllocError>
        ensures stands { OnOk result ((fed : List ℕ) (handed : List Packet) → StandsFor self.old fed handed → StandsFor self.new (fed ++ piece.now) handed) }
        ensures exact { OnOk result (self.new ≡ fed_to self.old piece.now) }
        ensures ended { IfSome self.old.verdict (λ _. IsOk result × (self.new ≡ self.old)) }
        ensures err { OnErr result (self.new ≡ self.old) }
    {
        self.feed_now(piece)
    }

    fn feed_now(&mut self, piece: &[u8]) -> Result<(), AllocError>
        ensures ok { OnOk result (self.new ≡ fed_to self.old piece.now) }
        ensures ended { IfSome self.old.verdict (λ _. IsOk result × (self.new ≡ self.old)) }
        ensures err { OnErr result (self.new ≡ self.old) }
    {
        if self.verdict.is_some() {
            return Ok(());
        }
        self.buffer.extend_from_slice(piece)
    }

    /// The next packet of the stream, or why there is none yet or ever. Where memory runs out,
    /// nothing has changed.
    #[tactic(auto, using(crate::proofs::Stands::stands_after, crate::proofs::Stands::kept_after, crate::proofs::Stands::short_after))]
    pub fn next(&mut self) -> Result<Next, AllocError>
        ensures exact { IfOk result (λ next. (next, self.new) ≡ next_of self.old) }
        ensures tells { IfOk result (λ next. (fed : List ℕ) (handed : List Packet) → StandsFor self.old fed handed → Tells fed handed next) }
        ensures stands { IfOk result (λ next. (fed : List ℕ) (handed : List Packet) → StandsFor self.old fed handed → StandsFor self.new fed (handed_with handed next)) }
        ensures kept { IfOk result (λ next. IsKept next self.new) }
        ensures ended { IfSome self.old.verdict (λ verdict. (result ≡ Ok (told self.old.at verdict)) × (self.new ≡ self.old)) }
        ensures held { IfOk result (λ next. IsShortAt next (length self.new.rest)) }
        ensures err { OnErr result (self.new ≡ self.old) }
    {
        self.next_now()
    }

    fn next_now(&mut self) -> Result<Next, AllocError>
        ensures ok { IfOk result (λ next. (next, self.new) ≡ next_of self.old) }
        ensures ended { IfSome self.old.verdict (λ verdict. (result ≡ Ok (told self.old.at verdict)) × (self.new ≡ self.old)) }
        ensures err { OnErr result (self.new ≡ self.old) }
    {
        if let Some(verdict) = self.verdict {
            return Ok(told(self.at, verdict));
        }
        let (_, rest) = self.buffer.as_slice().split_at(self.start);
        match front_of(self.alloc, rest)? {
            Front::Packet(packet, size) => {
                self.start += size;
                compact(&mut self.buffer, &mut self.start);
                self.at = self.at.saturating_add(size as u64);
                Ok(Next::Packet(packet))
            }
            Front::More => Ok(Next::More),
            Front::Ended(verdict) => {
                self.verdict = Some(verdict);
                Ok(told(self.at, verdict))
            }
        }
    }

    /// How many bytes are kept that aren't a packet yet. It takes no memory.
    pub fn held(&self) -> usize
        ensures { result ≡ length self.now.rest }
    {
        self.buffer.len() - self.start
    }

    /// How many bytes there are in memory: those that are held, and of those handed out at most as many.
    /// It takes no memory.
    pub fn kept(&self) -> usize
        ensures least { length self.now.rest ≤ result }
        ensures most { result ≤ 2 * length self.now.rest }
    {
        self.buffer.len()
    }
}

fn told(at: u64, verdict: Verdict) -> Next
    ensures { result ≡ told at verdict }
{
    match verdict {
        Verdict::Bad => Next::Bad { at },
        Verdict::TooLong(len) => Next::TooLong { at, len },
    }
}

/// Drops the bytes before `start` once they are more than those behind it. So each byte that was
/// handed out is paid for by moving one at most.
fn compact(buffer: &mut Vec<u8>, start: &mut usize)
    requires { start.old ≤ length buffer.old.items }
    ensures half { 2 * start.new ≤ length buffer.new.items }
    ensures same { drop start.new buffer.new.items ≡ drop start.old buffer.old.items }
{
    let end = buffer.len();
    if *start <= end - *start {
        return;
    }
    buffer.copy_within(*start..end, 0);
    buffer.truncate(end - *start);
    *start = 0;
}
