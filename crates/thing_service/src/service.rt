//! A jobs service of one thing.

ghost use Rattle.std.specs.Prelude.{◌≡◌, ◌≤◌, true, length, Some, IfOk, OnOk, OnErr};
ghost use Rattle.std.specs.List.{AllByRecursion};
ghost use Rattle.std.specs.Option.{option_copied};
ghost use Rattle.thing_topics.specs.Classes.{is_thing, is_job};
ghost use Rattle.thing_service.specs.Answers as answering;
ghost use Rattle.thing_service.specs.Asking as asking;
ghost use Rattle.thing_service.specs.Offers.{IsOffered};
ghost use Rattle.thing_service.specs.ServiceTexts.{IsReady, serving};

use crate::NoMemory;
use crate::answers::Answers;
use crate::asking::{asks_next, stream_asked, updated};
use crate::blocks::{one_answer, stream_answers};
use crate::offers::{Offer, end_job, is_known, next_of};
use crate::topics::{next_topic, update_topic};
use device_docs::{JobStatus, write_execution, write_update};
use list_types::{Blob, Text};
use std::alloc::Global;
use std::marker::Model;

/// The jobs service of a thing: which job is next, and the blocks of their images, which are made on demand. Contracts
/// see the thing and the offers.
#[derive(Debug, Drop)]
pub struct Service {
    alloc: Global,
    thing: Option<Text>,
    offers: Vec<Offer>,
}

impl Model for Service {
    ghost use Rattle.thing_service.specs.ServiceTexts.{Serving, serving, IsReady};

    ghost Value = { Serving };

    ghost view = { λ s. serving s.thing s.offers.items };

    ghost invariant = { λ s. IsReady (serving s.thing s.offers.items) };
}

impl Service {
    pub(crate) fn new(alloc: Global, thing: Option<Text>, offers: Vec<Offer>) -> Service
        requires { IsReady (serving thing offers.items) }
        ensures { result ≡ serving thing offers.items }
    {
        Service {
            alloc,
            thing,
            offers,
        }
    }

    /// What the service answers to a message, in order. StartNext is answered on StartNextAccepted by the first job that
    /// isn't over, or `{}`; an update of an offered job on UpdateAccepted by `{}`, and SUCCEEDED, FAILED or REJECTED makes
    /// the job over; a request for blocks of an offered file on Data by a data message for each block, or else on Rejected
    /// by an empty map. Any other topic is answered by nothing.
    ///
    /// # Errors
    /// Want of memory. The service is then as it was.
    #[tactic(auto, using(crate::proofs::Offered::ended_offered))]
    pub fn on(&mut self, topic: &str, payload: &[u8]) -> Result<Answers, NoMemory>
        ensures answers { IfOk result (λ answers. answers ≡ answering.answers self.old topic.now payload.now) }
        ensures messages { IfOk result (λ answers. AllByRecursion answering.IsMessage answers) }
        ensures after { OnOk result (self.new ≡ answering.after self.old topic.now payload.now) }
        ensures same { OnErr result (self.new ≡ self.old) }
    {
        let Some(thing) = &self.thing else {
            return Ok(Answers::new(self.alloc));
        };
        let answers = answers_to(
            self.alloc,
            thing.as_str(),
            self.offers.as_slice(),
            topic,
            payload,
        )?;
        if let Some(name) = updated(thing.as_str(), topic) {
            if ends_job(payload) {
                end_job(&mut self.offers, name);
            }
        }
        Ok(answers)
    }
}

#[tactic(auto, using(crate::proofs::Messages::update_messages, crate::proofs::Messages::block_messages))]
fn answers_to(
    alloc: Global,
    thing: &str,
    offers: &[Offer],
    topic: &str,
    payload: &[u8],
) -> Result<Answers, NoMemory>
    requires thing { is_thing thing.now ≡ true }
    requires offers { AllByRecursion IsOffered offers.now }
    ensures answers { IfOk result (λ answers. answers ≡ answering.thing_answers (Some thing.now) offers.now topic.now payload.now) }
    ensures messages { IfOk result (λ answers. AllByRecursion answering.IsMessage answers) }
{
    if asks_next(thing, topic) {
        return next_answers(alloc, thing, offers);
    }
    if let Some(name) = updated(thing, topic) {
        return update_answers(alloc, thing, offers, name);
    }
    match stream_asked(thing, topic) {
        Some(stream) => stream_answers(alloc, thing, offers, stream, payload),
        None => Ok(Answers::new(alloc)),
    }
}

/// The first job that isn't over.
fn next_answers(alloc: Global, thing: &str, offers: &[Offer]) -> Result<Answers, NoMemory>
    requires thing { is_thing thing.now ≡ true }
    requires offers { AllByRecursion IsOffered offers.now }
    ensures answers { IfOk result (λ answers. answers ≡ answering.next_answers thing.now offers.now) }
    ensures messages { IfOk result (λ answers. AllByRecursion answering.IsMessage answers) }
{
    let topic = next_topic(alloc, thing)?;
    let document = match next_of(offers) {
        Some(offer) => write_execution(alloc, Some(&offer.job))?,
        None => write_execution(alloc, None)?,
    };
    let payload = Blob::from_vec(Vec::from_slice(alloc, document.as_bytes())?);
    one_answer(alloc, topic, payload)
}

fn update_answers(
    alloc: Global,
    thing: &str,
    offers: &[Offer],
    name: &str,
) -> Result<Answers, NoMemory>
    requires thing { is_thing thing.now ≡ true }
    requires name { is_job name.now ≡ true }
    ensures { IfOk result (λ answers. answers ≡ answering.update_answers thing.now offers.now name.now) }
{
    if !is_known(offers, name) {
        return Ok(Answers::new(alloc));
    }
    let topic = update_topic(alloc, thing, name)?;
    let payload = Blob::from_vec(Vec::from_slice(alloc, b"{}".as_slice())?);
    one_answer(alloc, topic, payload)
}

/// Whether behind this update the job is over.
fn ends_job(payload: &[u8]) -> bool
    ensures { result ≡ answering.ends_job payload.now }
{
    payload == write_update(JobStatus::Succeeded).as_bytes()
        || payload == write_update(JobStatus::Failed).as_bytes()
        || payload == write_update(JobStatus::Rejected).as_bytes()
}
