// Beginning a session: 20, 28, 27.
ghost use Rattle.std.specs.Prelude.{◌≡◌, ◌<◌};
ghost use Rattle.meaning.specs.Limits.{kept_most, total_most};
ghost use Rattle.refusals.specs.Numbers.{fault};
ghost use Rattle.monitor.specs.Calls.{opened as opened_by, begin_fault_of, begin_of, outcome};
ghost use Rattle.monitor.specs.Fits.{Fit};

use crate::{Monitor, Outcome};
use refusals::Refusal;
use sheet::SoundSheet;

impl Monitor {
    // One session more, empty.
    #[tactic(auto, unfolding(crate::specs::Calls::opened))]
    fn opened(mut self) -> Self
        requires { Fit self × (self.kept < kept_most) × (self.total < total_most) }
        ensures { result ≡ opened_by self }
    {
        let before = window::row_before(self.carried, &self.rows, self.kept);
        self.sets[self.kept] = 0;
        self.rows[self.kept] = rows::next_row(SoundSheet { sheet: &self.sheet }, before, 0);
        self.kept += 1;
        self.total += 1;
        self
    }

    // 20, 28, 27.
    #[tactic(auto, unfolding(crate::specs::Calls::begin_fault_of))]
    fn begin_fault(&self) -> Result<(), Refusal>
        ensures { fault result ≡ begin_fault_of self.now }
    {
        let last = limits::TOTAL <= self.total;
        let full = Self::KEPT <= self.kept;
        if self.is_bad() {
            return Err(Refusal::BadState);
        }
        if last {
            return Err(Refusal::NoNumberLeft);
        }
        if full {
            return Err(Refusal::NoRoom);
        }
        Ok(())
    }

    // Begins a session, and answers its number.
    #[tactic(auto, using(crate::proofs::States::begin_refused), unfolding(crate::specs::Calls::begin_of))]
    pub fn begin(mut self) -> Outcome<u32>
        ensures { outcome result ≡ begin_of self }
    {
        if let Err(refusal) = self.begin_fault() {
            return Outcome {
                monitor: self,
                answer: Err(refusal),
            };
        }
        let session = self.total + 1;
        self = self.opened().settled();
        Outcome {
            monitor: self,
            answer: Ok(session),
        }
    }
}
