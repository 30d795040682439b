// The row of truths of a session, from the row before it and the session's set.
#![tactic(auto)]

ghost use Rattle.std.specs.Prelude.{◌≡◌};
ghost use Rattle.meaning.specs.Steps.{node_bit, next_row};
ghost use Rattle.sheet.specs.Sound.{rules_in};
ghost use Rattle.rows.specs.Needs.{NodeFits};

use sheet::SoundSheet;

// Node n in a session x: `now` has the bits of the nodes before it, `before` the row of the session before.
#[tactic(auto, using(crate::proofs::Arms::operands), unfolding(sheet::specs::Sound::rules_in, meaning::specs::Sheet::node_of, meaning::specs::Sheet::node_kind, meaning::specs::Sheet::node_kinds, meaning::specs::Steps::node_bit))]
fn node_bit(s: SoundSheet, before: u64, x: u32, now: u64, n: usize) -> bool
    requires { NodeFits s.sheet.now n }
    ensures { result ≡ node_bit (rules_in s.entry.sheet.now) before x now n ((rules_in s.entry.sheet.now).node n) }
{
    let v = s.sheet.node[n];
    let a = usize::from(v.left);
    let b = usize::from(v.right);
    // A kind is a number, since a stored sheet may hold any: what is above 7 is turned away as 20, before any row is made.
    match v.kind {
        1 => events::has(x, a),
        2 => events::possible(s.sheet, x, a),
        3 => !bits::bit(now, a),
        4 => bits::bit(now, a) && bits::bit(now, b),
        5 => bits::bit(now, a) || bits::bit(now, b),
        6 => bits::bit(before, a),
        7 => bits::bit(now, b) || (bits::bit(now, a) && bits::bit(before, n)),
        _ => true,
    }
}

// The row of a session with the set x, behind a session with the row `before`.
pub fn next_row(s: SoundSheet, before: u64, x: u32) -> u64
    ensures { result ≡ next_row (rules_in s.entry.sheet.now) before x }
{
    let mut row = 0;
    for n in 0..s.sheet.nodes {
        if node_bit(s, before, x, row, n) {
            row += 1 << n;
        }
    }
    row
}
