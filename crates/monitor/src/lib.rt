// The monitor: a loaded sheet, the counts, what is carried past the sessions let go, and the sets and rows of the kept ones. Each call tests the state
// first (20), then the paper's order; a refusal leaves the monitor as it was.
#![tactic(auto)]

ghost use Rattle.std.specs.Prelude.{◌≡◌};
ghost use Rattle.monitor.specs.Calls.{fresh, bad, settled as settled_by};
ghost use Rattle.monitor.specs.Fits.{Fit};

use refusals::Refusal;
use sheet::{Sheet, SoundSheet};

mod begin;
mod check;
mod count;
mod record;

// What calls keep true of a state (`Fit` in specs/) is no invariant of the type: a stored state may be any, and 20 turns away what does not fit.
#[derive(Clone, Copy)]
pub struct Monitor {
    pub sheet: Sheet,
    pub total: u32,
    pub gone: u32,
    // How many places are in use: beside them, since a stored state may say any number, and more than there are places is turned away as 20.
    pub kept: usize,
    // The row of truths at the last session let go, 0 if there is none.
    pub carried: u64,
    // For each kept session, oldest first, its set and its row; unused places hold 0. Two arrays, since an image has the sets alone, and rows are made of them.
    pub sets: [u32; Monitor::KEPT],
    pub rows: [u64; Monitor::KEPT],
}

// What a call answers that may change the monitor: it hands the monitor back, inside the answer struct that document 01 names.
#[derive(Clone, Copy)]
pub struct Outcome<T> {
    pub monitor: Monitor,
    pub answer: Result<T, Refusal>,
}

// The verdict, and the row of truths at the last session.
#[derive(Clone, Copy)]
pub struct Verdict {
    pub allow: bool,
    pub row: u64,
}

#[derive(Clone, Copy)]
pub struct Counts {
    pub total: u32,
    pub gone: u32,
    pub kept: usize,
}

impl Monitor {
    // At most so many sessions are kept, and so many nodes are in a sheet.
    pub const KEPT: usize = limits::KEPT;

    pub const NODES: usize = limits::NODES;

    // The empty monitor of a loaded sheet.
    #[tactic(auto, unfolding(crate::specs::Calls::fresh))]
    pub fn new(sheet: Sheet) -> Self
        ensures { result ≡ fresh sheet }
    {
        Self {
            sheet,
            total: 0,
            gone: 0,
            kept: 0,
            carried: 0,
            sets: [0; Self::KEPT],
            rows: [0; Self::KEPT],
        }
    }

    // Whether the state is one that 20 turns away.
    #[tactic(auto, using(crate::proofs::States::too_many_nodes), unfolding(crate::specs::Calls::bad))]
    pub fn is_bad(&self) -> bool
        ensures { result ≡ bad self.now }
    {
        Self::KEPT < self.kept
            || self.gone as usize + self.kept != self.total as usize
            || Self::NODES < self.sheet.nodes
            || !self.sheet.is_sound()
    }

    // The oldest kept session is let go while it is closed.
    #[tactic(auto, using(crate::proofs::States::gone_few), unfolding(crate::specs::Calls::settled))]
    fn settled(mut self) -> Self
        requires { Fit self }
        ensures { result ≡ settled_by self }
    {
        let sheet = SoundSheet { sheet: &self.sheet };
        let k = window::front_closed(sheet, &self.sets, self.kept);
        self.carried = window::row_before(self.carried, &self.rows, k);
        window::moved_up(&mut self.sets, &mut self.rows, k, self.kept);
        self.gone += k as u32;
        self.kept -= k;
        self
    }
}
