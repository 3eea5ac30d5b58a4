//! The filters that an UNSUBSCRIBE among effects names.

ghost use Rattle.std.specs.Prelude.{◌≡◌, ◌++◌, IfOk, OnOk};
ghost use Rattle.agent_journal.specs.Readings as journal;
ghost use Rattle.agent_core.specs.Sending.{names};

use agent_journal::Effect;
use list_types::{Copied, Seq, Text};
use mqtt_packet::Packet;
use std::alloc::{AllocError, Global};

/// Copies of the filters, in their order.
#[tactic(auto, using(crate::proofs::Named::named_more, crate::proofs::Named::named_all))]
pub fn sent_filters(alloc: Global, effects: &[Effect]) -> Result<Seq<Text>, AllocError>
    ensures { IfOk result (λ filters. filters ≡ journal.sent_filters effects.now) }
{
    let mut named = Seq::new(alloc);
    for effect in effects {
        push_names(alloc, &mut named, effect)?;
    }
    Ok(named)
}

fn push_names(alloc: Global, named: &mut Seq<Text>, effect: &Effect) -> Result<(), AllocError>
    ensures { OnOk result (named.new ≡ named.old ++ names effect.now) }
{
    match effect {
        Effect::Send {
            packet: Packet::Unsubscribe { filters, .. },
        } => push_all(alloc, named, filters.as_slice()),
        _ => Ok(()),
    }
}

#[tactic(auto, using(crate::proofs::Named::pushed_more, crate::proofs::Named::pushed_all))]
fn push_all(alloc: Global, named: &mut Seq<Text>, filters: &[Text]) -> Result<(), AllocError>
    ensures { OnOk result (named.new ≡ named.old ++ filters.now) }
{
    for filter in filters {
        named.push(filter.copy(alloc)?)?;
    }
    Ok(())
}
