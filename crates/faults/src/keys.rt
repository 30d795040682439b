// The order of records: whether one may follow another.
ghost use Rattle.std.specs.Prelude.{◌≡◌, ◌||◌};
ghost use Rattle.meaning.specs.Lists.{is_empty};
ghost use Rattle.meaning.specs.Sheet.{item_of, key_of, ascends as ascends_bytes, disordered as disordered_item};
ghost use Rattle.records.specs.Codes.{code};

use records::{Item, Kind};

// Whether a record may stand behind another of its kind.
#[tactic(auto, using(crate::proofs::Order::follows_root, crate::proofs::Order::follows_pair), unfolding(meaning::specs::Sheet::item_of, meaning::specs::Sheet::root_in, meaning::specs::Sheet::key_of, meaning::specs::Lists::is_empty))]
fn follows(last: Item, item: Item) -> bool
    ensures { result ≡ (is_empty (key_of (item_of (code item.entry.kind) item.entry.payload.now)) || ascends_bytes (key_of (item_of (code item.entry.kind) last.entry.payload.now)) (key_of (item_of (code item.entry.kind) item.entry.payload.now))) }
{
    match item.kind {
        Kind::Count | Kind::Node => true,
        Kind::Root => (last.byte(0), last.tail()) < (item.byte(0), item.tail()),
        Kind::Cause | Kind::Conflict => {
            (last.byte(0), last.byte(1)) < (item.byte(0), item.byte(1))
        }
    }
}

// Whether a record is out of order behind the last one, of kind `before`, or as the first, where that is 0. It is a number, since the rule speaks of
// any: behind a kind above 5 each record is of a lower one.
#[tactic(auto, using(crate::proofs::Framed::kind_of_code), unfolding(meaning::specs::Sheet::disordered))]
pub fn disordered(before: u8, last: &[u8], item: Item) -> bool
    ensures { result ≡ disordered_item before (key_of (item_of before last.now)) (item_of (code item.entry.kind) item.entry.payload.now) }
{
    if before == 0 {
        return item.kind != Kind::Count;
    }
    let kind = item.kind as u8;
    // Read as of the record's own kind, since `follows` is asked only where it is.
    let last = Item {
        kind: item.kind,
        payload: last,
    };
    item.kind == Kind::Count || kind < before || (kind == before && !follows(last, item))
}
