// The loader: from a sheet's bytes to a loaded sheet, or a refusal. One pass, record by record; the earliest faulty record decides.
#![tactic(auto)]

ghost use Rattle.std.specs.Prelude.{◌≡◌, ◌<◌};
ghost use Rattle.meaning.specs.Limits.{events_most};
ghost use Rattle.meaning.specs.Sheet.{sheet_of};
ghost use Rattle.refusals.specs.Numbers.{answer};
ghost use Rattle.records.specs.Codes.{code};
ghost use Rattle.sheet.specs.Loads.{nothing, answered};
ghost use Rattle.sheet.specs.ByRecord.{with_cause, with_conflict, Fitting, put_record, Countable, counted};

use faults::{Last, Tally};
use records::{Frame, Item, KINDS, Kind};
use refusals::Refusal;

mod soundness;

pub use soundness::SoundSheet;

// A node as numbers: its kind and its operands, 0 where it has none. Numbers, since a stored sheet may hold any kind: one above 7 is turned away as 20.
#[derive(Clone, Copy)]
pub struct Node {
    pub kind: u8,
    pub left: u8,
    pub right: u8,
}

// What the monitor needs of a sheet, and no more.
#[derive(Clone, Copy)]
pub struct Sheet {
    pub events: usize,
    // For each event the set of those that it needs, and of those that it conflicts with: two relations, each asked alone, and so two tables.
    pub needs: [u32; limits::EVENTS],
    pub conflicts: [u32; limits::EVENTS],
    // So many nodes stand in `node`, and zeroes behind them. A stored sheet may say any number here, which 20 turns away: so it stands beside the places.
    pub nodes: usize,
    pub node: [Node; limits::NODES],
}

// b needs a, and whatever a needs.
#[tactic(auto, using(laws::proofs::SetLaws::one_shl), unfolding(crate::specs::ByRecord::with_cause))]
fn add_cause(needs: &mut [u32; limits::EVENTS], a: u8, b: u8)
    requires { (a < events_most) × (b < events_most) }
    ensures { needs.new ≡ with_cause needs.old a b }
{
    let x = usize::from(a);
    let y = usize::from(b);
    needs[y] = needs[y] | needs[x] | (1 << a);
}

// a and b conflict, both ways.
#[tactic(auto, using(laws::proofs::SetLaws::one_shl), unfolding(crate::specs::ByRecord::with_conflict))]
fn add_conflict(conflicts: &mut [u32; limits::EVENTS], a: u8, b: u8)
    requires { (a < events_most) × (b < events_most) }
    ensures { conflicts.new ≡ with_conflict conflicts.old a b }
{
    let x = usize::from(a);
    let y = usize::from(b);
    conflicts[x] = conflicts[x] | (1 << b);
    conflicts[y] = conflicts[y] | (1 << a);
}

impl Sheet {
    // No events and no nodes: what is loaded of nothing.
    #[tactic(auto, unfolding(crate::specs::Loads::nothing))]
    pub fn empty() -> Self
        ensures { result ≡ nothing }
    {
        Self {
            events: 0,
            needs: [0; limits::EVENTS],
            conflicts: [0; limits::EVENTS],
            nodes: 0,
            node: [Node {
                kind: 0,
                left: 0,
                right: 0,
            }; limits::NODES],
        }
    }

    // What a record adds. Roots are read from the bytes, and not kept.
    #[tactic(auto, unfolding(crate::specs::ByRecord::put_record))]
    fn add(&mut self, item: Item)
        requires { Fitting self.old.nodes (code item.kind) item.payload.now }
        ensures { self.new ≡ put_record self.old (code item.entry.kind) item.entry.payload.now }
    {
        let a = item.byte(0);
        let b = item.byte(1);
        match item.kind {
            Kind::Count => self.events = usize::from(a),
            Kind::Cause => add_cause(&mut self.needs, a, b),
            Kind::Conflict => add_conflict(&mut self.conflicts, a, b),
            Kind::Root => {}
            Kind::Node => {
                let n = self.nodes;
                self.node[n] = Node {
                    kind: a,
                    left: b,
                    right: item.byte(2),
                };
                self.nodes = n + 1;
            }
        }
    }
}

// Counts a record, with the number of events as it is then.
#[tactic(auto, unfolding(crate::specs::ByRecord::counted))]
fn count(t: &mut Tally, f: Frame, events: usize)
    requires { Countable t.old f }
    ensures { t.new ≡ counted t.old f events }
{
    t.seen[f.kind.place()] += 1;
    t.last = Some(Last {
        kind: f.kind as u8,
        start: f.start,
        len: f.len,
    });
    t.events = events;
}

// The sheet that the bytes say, loaded, or the refusal. The walk goes from record to record, each of a length of its own.
pub fn load(s: &[u8]) -> Result<Sheet, Refusal>
    ensures { answer result ≡ answered (sheet_of s.now) }
{
    if limits::SHEET < s.len() {
        return Err(Refusal::SheetTooLong);
    }
    let mut sheet = Sheet::empty();
    let mut t = Tally {
        last: None,
        events: 0,
        seen: [0; KINDS],
    };
    let mut at = 0;
    while at < s.len() {
        let f = records::read_at(s, at)?;
        faults::fault(s, &t, f)?;
        sheet.add(faults::item_at(s, f));
        count(&mut t, f, sheet.events);
        at = f.next;
    }
    if sheet.nodes == 0 {
        return Err(Refusal::NoNode);
    }
    Ok(sheet)
}
