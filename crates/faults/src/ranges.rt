// What numbers a record may hold.
ghost use Rattle.std.specs.Prelude.{◌≡◌};
ghost use Rattle.meaning.specs.Rules.{node_in_range};
ghost use Rattle.meaning.specs.Sheet.{item_of, node_of, pair_in_range, in_range};
ghost use Rattle.records.specs.Codes.{code};

use records::{Item, Kind};

// Whether (a, b) may be a pair: a below b, both events of the sheet.
#[tactic(auto, unfolding(meaning::specs::Sheet::pair_in_range))]
fn pair_ok(a: u8, b: u8, events: usize) -> bool
    ensures { result ≡ pair_in_range events a b }
{
    a < b && usize::from(b) < events
}

// Whether a node names events of the sheet, and uses earlier nodes only. Its kind is a number, since stored sheets are asked too, and may hold any.
#[tactic(auto, using(crate::proofs::Range::one_event, crate::proofs::Range::one_node, crate::proofs::Range::two_nodes, crate::proofs::Range::no_operand))]
pub fn node_ok(kind: u8, a: u8, b: u8, events: usize, earlier: usize) -> bool
    ensures { result ≡ node_in_range events earlier (node_of kind a b) }
{
    let x = usize::from(a);
    let y = usize::from(b);
    match kind {
        1 | 2 => x < events,
        3 | 6 => x < earlier,
        4 | 5 | 7 => x < earlier && y < earlier,
        _ => true,
    }
}

// Whether a payload's numbers are in range.
#[tactic(auto, unfolding(meaning::specs::Sheet::in_range, meaning::specs::Sheet::item_of, meaning::specs::Sheet::root_in, meaning::specs::Sheet::node_in, meaning::specs::Sheet::known_access))]
pub fn in_range(item: Item, events: usize, earlier: usize) -> bool
    ensures { result ≡ in_range events earlier (item_of (code item.entry.kind) item.entry.payload.now) }
{
    let a = item.byte(0);
    let b = item.byte(1);
    match item.kind {
        Kind::Count => (1..=limits::EVENTS).contains(&usize::from(a)),
        Kind::Root => a <= 1 && usize::from(b) < events,
        Kind::Node => node_ok(a, b, item.byte(2), events, earlier),
        Kind::Cause | Kind::Conflict => pair_ok(a, b, events),
    }
}
