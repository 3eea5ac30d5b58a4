//! Services, read from their text.

ghost use Rattle.std.specs.Prelude.{◌≡◌, ◌+◌, ◌≤◌, true, length, drop, IfOk, IfSome};
ghost use Rattle.std.specs.List.{AllByRecursion};
ghost use Rattle.thing_topics.specs.Classes.{is_thing};
ghost use Rattle.thing_service.specs.Offers.{IsOffered};
ghost use Rattle.plain_text.specs.Lines.{lines_of};
ghost use Rattle.thing_service.specs.Reading.{Tells, TellsThing, TellsOffers};
ghost use Rattle.thing_service.specs.ServiceTexts as texts;

use crate::faults::ServiceFault;
use crate::offers::Offer;
use crate::service::Service;
use crate::texts::{new_offer, thing_of};
use list_types::Text;
use plain_text::{Refusal, is_passed, line_at};
use std::alloc::Global;

/// The service that a text spells: a line `thing` T, and then a line `job` J STREAM PATH FILE SEED SIZE for each job.
/// Empty lines and those that begin with `#` may stand anywhere. A text without a thing is a service that answers
/// nothing. The digest of each image is made here, once.
///
/// # Errors
/// The first line that isn't in the grammar; `NoMemory`.
#[tactic(auto, using(crate::proofs::TextLines::service_read, crate::proofs::TextLines::service_refused))]
pub fn read_service(alloc: Global, text: &[u8]) -> Result<Service, ServiceFault>
    ensures service { Tells result (texts.service_of text.now) }
{
    match read_thing(alloc, text)? {
        Some((thing, number, at)) => {
            let offers = read_offers(alloc, text, number, at)?;
            Ok(Service::new(alloc, Some(thing), offers))
        }
        None => Ok(Service::new(alloc, None, Vec::new(alloc))),
    }
}

/// The thing, by the first line that isn't passed over, and the number and the place of the line behind it.
#[tactic(auto, using(crate::proofs::TextLines::thing_passed, crate::proofs::TextLines::thing_read, crate::proofs::TextLines::thing_refused, crate::proofs::TextLines::thing_end))]
fn read_thing(alloc: Global, text: &[u8]) -> Result<Option<(Text, u64, usize)>, ServiceFault>
    ensures tells { TellsThing text.now result }
    ensures thing { IfOk result (λ found. IfSome found (λ x. is_thing x.0 ≡ true)) }
{
    let mut number: u64 = 1;
    let mut at = 0;
    'lines: while at < text.len() {
        let (line, next) = line_at(text, at);
        if !is_passed(line) {
            return match thing_of(alloc, line) {
                Ok(thing) => Ok(Some((thing, number + 1, next))),
                Err(Refusal::Bad) => Err(ServiceFault::Line(number)),
                Err(Refusal::NoMemory) => Err(ServiceFault::NoMemory),
            };
        }
        number += 1;
        at = next;
    }
    Ok(None)
}

/// What the lines from `from` on offer, of which the first has this number.
#[tactic(auto, using(crate::proofs::TextLines::offers_passed, crate::proofs::TextLines::offers_read, crate::proofs::TextLines::offers_refused, crate::proofs::TextLines::offers_end, crate::proofs::TextLines::all_offered))]
fn read_offers(
    alloc: Global,
    text: &[u8],
    first: u64,
    from: usize,
) -> Result<Vec<Offer>, ServiceFault>
    requires small { first ≤ from + 1 }
    requires within { from ≤ length text.now }
    ensures offers { TellsOffers (λ offers. offers.items) result first (lines_of (drop from text.now)) }
    ensures nameable { IfOk result (λ offers. AllByRecursion IsOffered offers.items) }
{
    let mut offers = Vec::new(alloc);
    let mut number = first;
    let mut at = from;
    'lines: while at < text.len() {
        let (line, next) = line_at(text, at);
        if !is_passed(line) {
            match new_offer(alloc, offers.as_slice(), line) {
                Ok(offer) => offers.push(offer)?,
                Err(Refusal::Bad) => return Err(ServiceFault::Line(number)),
                Err(Refusal::NoMemory) => return Err(ServiceFault::NoMemory),
            }
        }
        number += 1;
        at = next;
    }
    Ok(offers)
}
