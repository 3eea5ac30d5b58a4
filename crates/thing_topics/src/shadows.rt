//! Topics of shadows.

ghost use Rattle.std.specs.Prelude.{◌≡◌, ◌≤◌, length, IfOk, IfErr, Ok, IfNone, IfSome, IsTrue};
ghost use Rattle.arrayvec.specs.ArrayString.{array_string_len};
ghost use Rattle.std.specs.Option.{option_copied};
ghost use Rattle.thing_topics.specs.Faults.{IsShadowFault};
ghost use Rattle.thing_topics.specs.Readings.{Gives, fault_in};
ghost use Rattle.thing_topics.specs.Shadows as shadows;

use crate::classes::{is_shadow_name, is_thing};
use crate::cuts::{behind, first_level};
use crate::faults::{NameFault, TopicFault};
use crate::fronts::{front, front_of};
use crate::kinds::{Kind, kind_of};
use crate::topic_text::TopicText;

/// What a topic of a shadow is about.
#[derive(Clone, Copy, Debug, PartialEq, Eq)]
pub enum ShadowKind {
    /// `get`
    Get,
    /// `get/accepted`
    GetAccepted,
    /// `get/rejected`
    GetRejected,
    /// `update`
    Update,
    /// `update/accepted`
    UpdateAccepted,
    /// `update/rejected`
    UpdateRejected,
    /// `update/delta`
    UpdateDelta,
    /// `update/documents`
    UpdateDocuments,
    /// `delete`
    Delete,
    /// `delete/accepted`
    DeleteAccepted,
    /// `delete/rejected`
    DeleteRejected,
}

impl Kind for ShadowKind {
    ghost use Rattle.thing_topics.specs.Shadows.{word};

    ghost written = { word };

    fn word(self) -> &'static str {
        match self {
            ShadowKind::Get => "get",
            ShadowKind::GetAccepted => "get/accepted",
            ShadowKind::GetRejected => "get/rejected",
            ShadowKind::Update => "update",
            ShadowKind::UpdateAccepted => "update/accepted",
            ShadowKind::UpdateRejected => "update/rejected",
            ShadowKind::UpdateDelta => "update/delta",
            ShadowKind::UpdateDocuments => "update/documents",
            ShadowKind::Delete => "delete",
            ShadowKind::DeleteAccepted => "delete/accepted",
            ShadowKind::DeleteRejected => "delete/rejected",
        }
    }
}

/// What a topic of a shadow says. It borrows from the text.
#[derive(Clone, Copy, Debug, PartialEq, Eq)]
pub struct ShadowMatch<'a> {
    /// 1 to 128 of the ASCII letters and digits, `:`, `_` and `-`.
    pub thing: &'a str,
    /// The shadow's name, 1 to 64 of the same, where it has one.
    pub name: Option<&'a str>,
    pub kind: ShadowKind,
}

/// The topic of a thing's shadow, `$aws/things/THING/shadow/KIND`, or with the shadow's name
/// `$aws/things/THING/shadow/name/NAME/KIND`. A thing is 1 to 128 of the ASCII letters and digits,
/// `:`, `_` and `-`, and a name 1 to 64 of them. The fault is `Thing` where the thing isn't one,
/// else `Name`.
pub fn shadow_topic(
    thing: &str,
    name: Option<&str>,
    kind: ShadowKind,
) -> Result<TopicText, NameFault>
    ensures text { IfOk result (λ topic. topic.bytes ≡ shadows.topic_text (shadows.parts_of thing.now (option_copied name.entry) kind)) }
    ensures fault { fault_in result ≡ shadows.fault_of thing.now (option_copied name.entry) }
    ensures back { IfOk result (λ topic. shadows.read topic.bytes ≡ Ok (shadows.parts_of thing.now (option_copied name.entry) kind)) }
{
    match fault_of(thing, name) {
        Some(fault) => Err(fault),
        None => Ok(topic_text(thing, name, kind)),
    }
}

#[tactic(auto, unfolding(crate::specs::Shadows::fault_of))]
fn fault_of(thing: &str, name: Option<&str>) -> Option<NameFault>
    ensures fault { result ≡ shadows.fault_of thing.now (option_copied name.entry) }
    ensures thing { IfNone result (length thing.now ≤ 128) }
    ensures name { IfNone result (IfSome name.entry (λ name. length name.now ≤ 64)) }
{
    if !is_thing(thing) {
        Some(NameFault::Thing)
    } else if !has_class(name) {
        Some(NameFault::Name)
    } else {
        None
    }
}

#[tactic(auto, unfolding(crate::specs::Shadows::topic_text))]
fn topic_text(thing: &str, name: Option<&str>, kind: ShadowKind) -> TopicText
    requires thing { length thing.now ≤ 128 }
    requires name { IfSome name (λ name. length name.now ≤ 64) }
    ensures { result.bytes ≡ shadows.topic_text (shadows.parts_of thing.now (option_copied name.entry) kind) }
{
    let mut topic = with_name(front(thing, "/shadow/"), name);
    topic.push_str(kind.word());
    topic
}

fn with_name(mut topic: TopicText, name: Option<&str>) -> TopicText
    requires front { array_string_len topic ≤ 149 }
    requires name { IfSome name (λ name. length name.now ≤ 64) }
    ensures text { result.bytes ≡ shadows.with_name topic.bytes (option_copied name.entry) }
    ensures len { array_string_len result ≤ 219 }
{
    match name {
        Some(name) => {
            topic.push_str("name/");
            topic.push_str(name);
            topic.push_str("/");
            topic
        }
        None => topic,
    }
}

/// What a text says as a topic of a shadow. The fault is the first that applies: `Root`; `Thing`;
/// `Kind` where `shadow/` doesn't follow; `Part` where the level behind `shadow/name/` isn't a name
/// and a further level follows it; `Kind` where what is left is no kind.
pub fn match_shadow(text: &str) -> Result<ShadowMatch<'_>, TopicFault>
    ensures reading { Gives shadows.found_parts result (shadows.read text.now) }
    ensures topic { IfOk result (λ found. shadows.IsTopic text.now (shadows.found_parts found)) }
    ensures fault { IfErr result (λ fault. IsShadowFault text.now fault) }
    ensures none { IfErr result (λ _. (parts : shadows.Parts) → shadows.IsTopic text.now parts → ⊥) }
{
    read(text)
}

#[tactic(auto, unfolding(crate::specs::Shadows::read))]
fn read(text: &str) -> Result<ShadowMatch<'_>, TopicFault>
    ensures { Gives shadows.found_parts result (shadows.read text.now) }
{
    let (thing, rest) = front_of("shadow/", text)?;
    let (name, word) = place_of(rest);
    if !has_class(name) {
        return Err(TopicFault::Part);
    }
    match shadow_kind(word) {
        Some(kind) => Ok(ShadowMatch { thing, name, kind }),
        None => Err(TopicFault::Kind),
    }
}

fn has_class(name: Option<&str>) -> bool
    ensures class { result ≡ shadows.has_class (option_copied name.entry) }
    ensures short { IsTrue result → IfSome name.entry (λ name. length name.now ≤ 64) }
{
    match name {
        Some(name) => is_shadow_name(name),
        None => true,
    }
}

/// The name that stands in its place by the form of what is behind `shadow/`, and the kind's word.
#[tactic(auto, unfolding(crate::specs::Shadows::place_of))]
fn place_of(rest: &str) -> (Option<&str>, &str)
    ensures { (option_copied result.0, result.1.now) ≡ shadows.place_of rest.now }
{
    let Some(text) = behind("name/", rest) else {
        return (None, rest);
    };
    let (name, below) = first_level(text);
    match below {
        Some(word) => (Some(name), word),
        None => (None, rest),
    }
}

#[tactic(auto, unfolding(crate::specs::Shadows::kind_of))]
fn shadow_kind(word: &str) -> Option<ShadowKind>
    ensures { result ≡ shadows.kind_of word.now }
{
    let kinds = [
        ShadowKind::Get,
        ShadowKind::GetAccepted,
        ShadowKind::GetRejected,
        ShadowKind::Update,
        ShadowKind::UpdateAccepted,
        ShadowKind::UpdateRejected,
        ShadowKind::UpdateDelta,
        ShadowKind::UpdateDocuments,
        ShadowKind::Delete,
        ShadowKind::DeleteAccepted,
        ShadowKind::DeleteRejected,
    ];
    kind_of(kinds.as_slice(), word)
}
