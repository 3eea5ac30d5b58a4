//! Which identifier comes next.

ghost use Rattle.std.specs.Prelude.{◌≡◌, ◌++◌, ◌||◌, length};
ghost use Rattle.agent_table.specs.Deliveries.{is_among};
ghost use Rattle.agent_table.specs.Identifiers.{fresh};
ghost use Rattle.agent_core.specs.Kept.{used_in};

use super::Core;
use crate::identifiers::behind;

impl<const ACKS: usize, const IN: usize, const ROUTES: usize> Core<ACKS, IN, ROUTES> {
    /// The first identifier behind `last` that no open command and no open renewal has, and that isn't one
    /// of those drawn already.
    #[tactic(auto, using(agent_table::proofs::Searching::at_start, agent_table::proofs::Searching::found, agent_table::proofs::Searching::passed, agent_table::proofs::Searching::at_end))]
    pub(super) fn fresh(&self, last: u16, drawn: &[u16]) -> u16
        ensures { result ≡ fresh last (drawn.now ++ used_in self.now) }
    {
        let mut id = behind(last);
        for tried in 0..self.used_len(drawn) {
            if !self.is_used(id, drawn) {
                return id;
            }
            id = behind(id);
        }
        id
    }

    /// How many identifiers are in use.
    fn used_len(&self, drawn: &[u16]) -> usize
        ensures { result ≡ length (drawn.now ++ used_in self.now) }
    {
        drawn.len() + self.pending.len() + self.subscriptions.renewals_len()
    }

    fn is_used(&self, id: u16, drawn: &[u16]) -> bool
        ensures { result ≡ is_among (drawn.now ++ used_in self.now) id }
    {
        any_of(
            drawn.contains(&id),
            self.pending.has(id),
            self.subscriptions.renewal_len(id).is_some(),
        )
    }
}

fn any_of(drawn: bool, pending: bool, renewed: bool) -> bool
    ensures { result ≡ (drawn || pending || renewed) }
{
    drawn || pending || renewed
}
