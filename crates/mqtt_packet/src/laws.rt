//! Laws of the definitions, and worked examples, each the contract of a function that does nothing.

ghost use Rattle.mqtt_packet.specs.Examples.{ConnectsAreSpelled, MessagesAreSpelled, SubscriptionsAreSpelled, VerdictsAreThese};
ghost use Rattle.mqtt_packet.specs.Laws.{SoundAreSpelled, SpelledAreSound, HaveOneSpelling, SpellOnePacket, BeginNoOther, BytesAreAStream, StreamsAreUnique, RestsHaveAVerdict, SizesAreUnique, AnswersAreDetermined, CutsMakeNoDifference};

/// A packet that is sound has a spelling.
#[tactic(auto, using(crate::proofs::Uniqueness::sound_are_spelled))]
pub fn sound_are_spelled()
    ensures { SoundAreSpelled }
{}

/// A packet that has a spelling is sound.
#[tactic(auto, using(crate::proofs::Uniqueness::spelled_are_sound))]
pub fn spelled_are_sound()
    ensures { SpelledAreSound }
{}

/// A packet has at most one spelling.
#[tactic(auto, using(crate::proofs::Uniqueness::have_one_spelling))]
pub fn packets_have_one_spelling()
    ensures { HaveOneSpelling }
{}

/// Two packets have no spelling in common.
#[tactic(auto, using(crate::proofs::Uniqueness::spell_one_packet))]
pub fn bytes_spell_one_packet()
    ensures { SpellOnePacket }
{}

/// No spelling is a front of another one, so what is written is read again, whatever follows it.
#[tactic(auto, using(crate::proofs::Uniqueness::begin_no_other))]
pub fn spellings_begin_no_other()
    ensures { BeginNoOther }
{}

/// Each list of bytes is the spellings of packets and then a rest of which no front is one.
#[tactic(auto, using(crate::proofs::Streams::bytes_are_a_stream))]
pub fn bytes_are_a_stream()
    ensures { BytesAreAStream }
{}

/// These packets and this rest are the only ones.
pub fn streams_are_unique()
    ensures { StreamsAreUnique }
{}

/// A rest is bad, too long or partial.
#[tactic(auto, using(crate::proofs::Streams::rests_have_a_verdict))]
pub fn rests_have_a_verdict()
    ensures { RestsHaveAVerdict }
{}

/// A rest that is too long has one length.
#[tactic(auto, using(crate::proofs::Streams::sizes_are_unique))]
pub fn sizes_are_unique()
    ensures { SizesAreUnique }
{}

/// What was fed and handed out determines what a [`Splitter`](crate::Splitter) answers.
#[tactic(auto, using(crate::proofs::Cuts::answers_are_determined))]
pub fn answers_are_determined()
    ensures { AnswersAreDetermined }
{}

/// Where the pieces were cut makes no difference to the packets and to the verdict.
pub fn cuts_make_no_difference()
    ensures { CutsMakeNoDifference }
{}

/// A CONNECT and a CONNACK, byte by byte.
#[tactic(auto, using(crate::proofs::Worked::connects_are_spelled))]
pub fn connects_are_spelled()
    ensures { ConnectsAreSpelled }
{}

/// The packets that carry messages, byte by byte.
#[tactic(auto, using(crate::proofs::Worked::messages_are_spelled))]
pub fn messages_are_spelled()
    ensures { MessagesAreSpelled }
{}

/// All other packets, byte by byte.
#[tactic(auto, using(crate::proofs::Worked::subscriptions_are_spelled))]
pub fn subscriptions_are_spelled()
    ensures { SubscriptionsAreSpelled }
{}

/// Bytes of each verdict.
#[tactic(auto, using(crate::proofs::Worked::verdicts_are_these))]
pub fn verdicts_are_these()
    ensures { VerdictsAreThese }
{}
