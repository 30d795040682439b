// Recording an event: 20 to 26.
ghost use Rattle.std.specs.Prelude.{◌≡◌, ◌<◌};
ghost use Rattle.meaning.specs.Limits.{events_most, kept_most};
ghost use Rattle.refusals.specs.Numbers.{fault};
ghost use Rattle.monitor.specs.Calls.{written as written_by, fault_at, fault_in, record_fault_of, record_of, outcome};
ghost use Rattle.monitor.specs.Fits.{Fit};

use crate::{Monitor, Outcome};
use refusals::Refusal;
use sheet::SoundSheet;

impl Monitor {
    // The kept place i holds event e too, and the rows from there on are made anew.
    #[tactic(auto, unfolding(crate::specs::Calls::written))]
    fn written(mut self, i: usize, e: usize) -> Self
        requires { Fit self × (i < kept_most) × (e < events_most) }
        ensures { result ≡ written_by self i e }
    {
        let m = &mut self;
        m.sets[i] = events::added(m.sets[i], e);
        let sheet = SoundSheet { sheet: &m.sheet };
        window::rows_from(sheet, m.carried, &m.sets, &mut m.rows, i, m.kept);
        self
    }

    // 23 to 26: what event e meets in the set x of a kept session.
    #[tactic(auto, using(sheet::proofs::SoundSays::few_events), unfolding(crate::specs::Calls::fault_at))]
    fn fault_at(&self, x: u32, e: usize) -> Result<(), Refusal>
        requires { Fit self.now × (e < self.now.sheet.events) }
        ensures { fault result ≡ fault_at self.now x e }
    {
        let sheet = &self.sheet;
        let shut = events::closed(sheet, x);
        let there = events::has(x, e);
        let clash = !events::possible(sheet, x, e);
        let lacks = !events::supported(sheet, x, e);
        if shut {
            return Err(Refusal::SessionClosed);
        }
        if there {
            return Err(Refusal::AlreadyThere);
        }
        if clash {
            return Err(Refusal::Conflict);
        }
        if lacks {
            return Err(Refusal::CauseMissing);
        }
        Ok(())
    }

    // 21 to 26.
    #[tactic(auto, unfolding(crate::specs::Calls::fault_in))]
    fn fault_in(&self, session: u32, event: u32) -> Result<(), Refusal>
        requires { Fit self.now }
        ensures { fault result ≡ fault_in self.now session event }
    {
        if session == 0 || self.total < session {
            return Err(Refusal::UnknownSession);
        }
        let e = event as usize;
        if self.sheet.events <= e {
            return Err(Refusal::UnknownEvent);
        }
        if session <= self.gone {
            return Err(Refusal::SessionClosed);
        }
        let i = (session - self.gone - 1) as usize;
        self.fault_at(self.sets[i], e)
    }

    // 20 to 26.
    #[tactic(auto, unfolding(crate::specs::Calls::record_fault_of))]
    fn record_fault(&self, session: u32, event: u32) -> Result<(), Refusal>
        ensures { fault result ≡ record_fault_of self.now session event }
    {
        if self.is_bad() {
            return Err(Refusal::BadState);
        }
        self.fault_in(session, event)
    }

    // Records an event in a session, old or new.
    #[tactic(auto, using(crate::proofs::States::recording), unfolding(crate::specs::Calls::record_of))]
    pub fn record(mut self, session: u32, event: u32) -> Outcome<()>
        ensures { outcome result ≡ record_of self session event }
    {
        if let Err(refusal) = self.record_fault(session, event) {
            return Outcome {
                monitor: self,
                answer: Err(refusal),
            };
        }
        let i = (session - self.gone - 1) as usize;
        self = self.written(i, event as usize).settled();
        Outcome {
            monitor: self,
            answer: Ok(()),
        }
    }
}
