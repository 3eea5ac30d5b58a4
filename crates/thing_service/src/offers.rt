//! Jobs that a service offers.

ghost use Rattle.std.specs.Prelude.{◌≡◌, map, IsTrue, IfSome};
ghost use Rattle.std.specs.List.{list_any, AllByRecursion};
ghost use Rattle.std.specs.Option.{option_copied};
ghost use Rattle.device_docs.specs.Jobs.{is_nameable};
ghost use Rattle.thing_service.specs.Offers as offering;

use device_docs::Job;

/// A job that a service offers, and how its image is made.
#[derive(Debug, Drop)]
pub struct Offer {
    pub job: Job,
    /// The seed of its image.
    pub seed: u64,
    pub is_over: bool,
}

/// The first offer that isn't over.
#[tactic(auto, using(crate::proofs::Offered::found_offered))]
pub(crate) fn next_of(offers: &[Offer]) -> Option<&Offer>
    requires { AllByRecursion offering.IsOffered offers.now }
    ensures first { option_copied result ≡ offering.next_of offers.now }
    ensures nameable { IfSome result (λ offer. IsTrue (is_nameable offer.now.job)) }
{
    offers.iter().find(|offer| !offer.is_over)
}

/// Whether a job of this name is offered.
pub(crate) fn is_known(offers: &[Offer], name: &str) -> bool
    ensures { result ≡ list_any (offering.is_named name.now) offers.now }
{
    offers.iter().any(|offer| offer.job.job.as_str() == name)
}

/// Whether an offer has the job's name, or its stream and its file.
pub(crate) fn is_repeat(offers: &[Offer], job: &Job) -> bool
    ensures { result ≡ offering.is_repeat offers.now job.now }
{
    offers.iter().any(|offer| {
        offer.job.job.as_str() == job.job.as_str()
            || (offer.job.stream.as_str() == job.stream.as_str() && offer.job.file == job.file)
    })
}

impl Offer {
    /// It is over from now on, where its job has this name.
    fn end(&mut self, name: &str)
        ensures { self.new ≡ offering.ended name.now self.old }
    {
        if self.job.job.as_str() == name {
            self.is_over = true;
        }
    }
}

/// Lets the job of this name be over.
pub(crate) fn end_job(offers: &mut Vec<Offer>, name: &str)
    ensures { offers.new.items ≡ map (offering.ended name.now) offers.old.items }
{
    for offer in offers.iter_mut() {
        offer.end(name);
    }
}
