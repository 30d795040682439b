// The kept sessions: their sets and rows in two arrays, oldest first, unused places 0.
#![tactic(auto)]

ghost use Rattle.std.specs.Prelude.{◌≡◌, ◌≤◌, ◌-◌, take};
ghost use Rattle.meaning.specs.Limits.{kept_most};
ghost use Rattle.meaning.specs.History.{let_go};
ghost use Rattle.sheet.specs.Sound.{rules_in};
ghost use Rattle.window.specs.Kept.{row_before, refreshed, moved};

use sheet::SoundSheet;

// The row of the session before place j: what is carried where j is the first.
pub fn row_before(carried: u64, rows: &[u64; limits::KEPT], j: usize) -> u64
    requires { j ≤ kept_most }
    ensures { result ≡ row_before carried rows.now j }
{
    if j == 0 { carried } else { rows[j - 1] }
}

// The rows from place `from` on, made anew from the row before it and the sets. Places are lent one by one, since an image's have no monitor yet.
pub fn rows_from(
    s: SoundSheet,
    carried: u64,
    sets: &[u32; limits::KEPT],
    rows: &mut [u64; limits::KEPT],
    from: usize,
    kept: usize,
)
    requires { kept ≤ kept_most }
    ensures { rows.new ≡ refreshed (rules_in s.entry.sheet.now) carried sets.now rows.old from (kept - from) }
{
    for j in from..kept {
        let before = row_before(carried, rows, j);
        rows[j] = rows::next_row(s, before, sets[j]);
    }
}

// How many of the kept sessions, from the oldest on, are closed.
pub fn front_closed(s: SoundSheet, sets: &[u32; limits::KEPT], kept: usize) -> usize
    requires { kept ≤ kept_most }
    ensures { result ≡ let_go (rules_in s.entry.sheet.now) (take kept sets.now) }
{
    sets[..kept]
        .iter()
        .take_while(|&&x| events::closed(s.sheet, x))
        .count()
}

// Lets go of the first k of the kept: the others move up, and freed places hold 0. Once for each array, since `fill` of any type asks that a clone cannot fail.
pub fn moved_up(
    sets: &mut [u32; limits::KEPT],
    rows: &mut [u64; limits::KEPT],
    k: usize,
    kept: usize,
)
    requires { (k ≤ kept) × (kept ≤ kept_most) }
    ensures { (sets.new ≡ moved k kept sets.old) × (rows.new ≡ moved k kept rows.old) }
{
    sets.copy_within(k..kept, 0);
    sets[kept - k..].fill(0);
    rows.copy_within(k..kept, 0);
    rows[kept - k..].fill(0);
}
