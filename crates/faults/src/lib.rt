// The fault of one record: whether it is out of order, one too many, out of range or a malformed root, judged by a tally of the records before it.
#![tactic(auto)]

ghost use Rattle.std.specs.Prelude.{◌≡◌, not};
ghost use Rattle.meaning.specs.Sheet.{item_of, root_formed, item_fault, disordered};
ghost use Rattle.refusals.specs.Numbers.{fault};
ghost use Rattle.records.specs.Codes.{code};
ghost use Rattle.faults.specs.Tallies.{Inside, LastInside, last_kind, last_key, payload_in, item_in, tallied};

use records::{Frame, Item, KINDS, Kind};
use refusals::Refusal;

pub mod keys;
pub mod ranges;

// The record before a record: its kind, a number as `keys::disordered` takes it, and where its payload starts and how long it is.
#[derive(Clone, Copy)]
pub struct Last {
    pub kind: u8,
    pub start: usize,
    pub len: usize,
}

// What of the records before a record decides on it: the last of them, the number of events, and how many of each kind there were, kind 1 first.
#[derive(Clone, Copy)]
pub struct Tally {
    pub last: Option<Last>,
    pub events: usize,
    pub seen: [usize; KINDS],
}

// What a record says: its payload is the part of the sheet that its frame names.
pub fn item_at(s: &[u8], f: Frame) -> Item
    requires { Inside s.now f }
    ensures { (result.kind ≡ f.kind) × (result.payload.now ≡ payload_in s.now f) }
{
    Item {
        kind: f.kind,
        payload: &s[f.start..f.start + f.len],
    }
}

// Whether a record is out of order behind the last, or as the first.
#[tactic(auto, unfolding(meaning::specs::Sheet::item_of, meaning::specs::Sheet::key_of))]
fn out_of_order(s: &[u8], last: Option<Last>, item: Item) -> bool
    requires { LastInside s.now last }
    ensures { result ≡ disordered (last_kind last) (last_key s.now last) (item_of (code item.entry.kind) item.entry.payload.now) }
{
    match last {
        Some(l) => keys::disordered(l.kind, &s[l.start..l.start + l.len], item),
        None => keys::disordered(0, &[], item),
    }
}

// Whether the record is a root whose path is malformed.
#[tactic(auto, unfolding(meaning::specs::Sheet::root_formed, meaning::specs::Sheet::item_of, meaning::specs::Sheet::root_in))]
fn malformed(item: Item) -> bool
    ensures { result ≡ not (root_formed (item_of (code item.entry.kind) item.entry.payload.now)) }
{
    item.kind == Kind::Root && !form::well_formed(item.tail())
}

// The record's fault, where it has one.
#[tactic(auto, using(crate::proofs::Framed::kind_of_code), unfolding(crate::specs::Tallies::item_in, crate::specs::Tallies::tallied, meaning::specs::Sheet::so_far, meaning::specs::Sheet::item_fault))]
pub fn fault(s: &[u8], t: &Tally, f: Frame) -> Result<(), Refusal>
    requires { LastInside s.now t.now.last × Inside s.now f }
    ensures { fault result ≡ item_fault (tallied s.now t.now) (item_in s.now f) }
{
    let item = item_at(s, f);
    let out = out_of_order(s, t.last, item);
    let full = f.kind.most() <= t.seen[f.kind.place()];
    let wrong = !ranges::in_range(item, t.events, t.seen[Kind::Node.place()]);
    let odd = malformed(item);
    if out {
        return Err(Refusal::OutOfOrder);
    }
    if full {
        return Err(Refusal::TooMany);
    }
    if wrong {
        return Err(Refusal::OutOfRange);
    }
    if odd {
        return Err(Refusal::MalformedRoot);
    }
    Ok(())
}
