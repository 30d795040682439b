// How many sessions were begun, let go and kept.
ghost use Rattle.std.specs.Prelude.{◌≡◌};
ghost use Rattle.refusals.specs.Numbers.{answer};
ghost use Rattle.monitor.specs.Calls.{counts_of};

use crate::{Counts, Monitor};
use refusals::Refusal;

impl Monitor {
    // Total, let go and kept.
    #[tactic(auto, unfolding(crate::specs::Calls::counts_of))]
    pub fn counts(&self) -> Result<Counts, Refusal>
        ensures { answer result ≡ counts_of self.now }
    {
        if self.is_bad() {
            return Err(Refusal::BadState);
        }
        Ok(Counts {
            total: self.total,
            gone: self.gone,
            kept: self.kept,
        })
    }
}
