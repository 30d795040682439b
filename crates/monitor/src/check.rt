// The verdict, and the row of truths at the last session.
ghost use Rattle.std.specs.Prelude.{◌≡◌};
ghost use Rattle.refusals.specs.Numbers.{answer};
ghost use Rattle.monitor.specs.Calls.{row_now, check_of};
ghost use Rattle.monitor.specs.Fits.{Fit};

use crate::{Monitor, Verdict};
use refusals::Refusal;
use sheet::SoundSheet;

impl Monitor {
    // The row at the last session.
    #[tactic(auto, unfolding(crate::specs::Calls::row_now))]
    fn row_now(&self) -> u64
        requires { Fit self.now }
        ensures { result ≡ row_now self.now }
    {
        if self.kept != 0 {
            return self.rows[self.kept - 1];
        }
        if self.total == 0 {
            return rows::next_row(SoundSheet { sheet: &self.sheet }, self.carried, 0);
        }
        self.carried
    }

    // The verdict, and the row of truths at the last session.
    #[tactic(auto, unfolding(crate::specs::Calls::check_of))]
    pub fn check(&self) -> Result<Verdict, Refusal>
        ensures { answer result ≡ check_of self.now }
    {
        if self.is_bad() {
            return Err(Refusal::BadState);
        }
        let row = self.row_now();
        let allow = bits::bit(row, self.sheet.nodes - 1);
        Ok(Verdict { allow, row })
    }
}
