// Reading an image: its header, its kept sessions, and whether the sheet allows them.
ghost use Rattle.std.specs.Prelude.{◌≡◌, ◌≤◌, ◌<◌, ◌^◌, leb, length};
ghost use Rattle.meaning.specs.Limits.{kept_most, header_length, session_kind, word_bits};
ghost use Rattle.meaning.specs.Image.{headed as headed_by, kept_in, sessions_in, said, oldest_closed};
ghost use Rattle.meaning.specs.Lists.{all};
ghost use Rattle.sheet.specs.Sound.{rules_in};
ghost use Rattle.image.specs.Parts.{answer, front_of, unlawful_in, fine as fine_by};
ghost use Rattle.window.specs.Kept.{filled};

use crate::{numbers, writing};
use sheet::SoundSheet;

// What the front of an image says.
#[derive(Clone, Copy)]
pub struct Header {
    pub total: u32,
    pub gone: u32,
    pub carried: u64,
}

// Whether bytes begin with the mark and a kind.
fn headed(s: &[u8], kind: u8) -> bool
    requires { 0 < kind }
    ensures { result ≡ headed_by kind s.now }
{
    s.starts_with(&writing::head_of(kind))
}

// Whether each of the kept sessions begins with the mark and its kind.
fn sessions_headed(s: &[u8]) -> bool
    requires { header_length ≤ length s.now }
    ensures { result ≡ all (headed_by session_kind) (sessions_in s.now) }
{
    s[limits::HEADER..]
        .chunks_exact(limits::SESSION)
        .all(|session| headed(session, limits::SESSION_KIND))
}

// The header of an image that is of the form, and nothing of any other: everything that 42 names is tested here. The length comes first, so that however
// long the bytes are no more sessions are looked at than may be kept.
pub fn read_header(s: &[u8]) -> Option<Header>
    ensures { answer result ≡ front_of s.now }
{
    if s.len() < limits::HEADER {
        return None;
    }
    let behind = s.len() - limits::HEADER;
    let kept = behind / limits::SESSION;
    let broken = behind % limits::SESSION != 0;
    let crowded = limits::KEPT < kept;
    if broken | crowded {
        return None;
    }
    let marked = headed(s, limits::HEADER_KIND);
    let whole = sessions_headed(s);
    let total = numbers::u32_of(&s[limits::TOTAL_AT..limits::TOTAL_AT + limits::COUNT_BYTES]);
    let gone = numbers::u32_of(&s[limits::GONE_AT..limits::GONE_AT + limits::COUNT_BYTES]);
    let carried = numbers::u64_of(&s[limits::CARRIED_AT..limits::CARRIED_AT + limits::ROW_BYTES]);
    let counted = total as u64 == gone as u64 + kept as u64;
    let stray = (gone == 0) & (carried != 0);
    if !marked | !whole | !counted | stray {
        return None;
    }
    Some(Header {
        total,
        gone,
        carried,
    })
}

// The sets of the kept sessions, and 0 in the places behind them.
pub fn sets_in(s: &[u8]) -> [u32; limits::KEPT]
    requires { (header_length ≤ length s.now) × (kept_in s.now ≤ kept_most) }
    ensures { result ≡ filled (said s.now).sets }
{
    let mut out = [0u32; limits::KEPT];

    // Each set by its place: once the borrows of `out.iter_mut().zip(..)` end, a proof knows the array's length, and no longer its sets.
    for (j, session) in s[limits::HEADER..]
        .chunks_exact(limits::SESSION)
        .enumerate()
    {
        out[j] = numbers::u32_of(&session[limits::SET_AT..limits::SET_AT + limits::SET_BYTES]);
    }
    out
}

// Whether x has a bit at n or above.
fn beyond(n: usize, x: u64) -> bool
    requires { n ≤ word_bits }
    ensures { result ≡ leb (2 ^ n) x }
{
    n < limits::WORD_BITS && x >> n != 0
}

// Whether a set holds events of the sheet only, and is allowed.
#[tactic(auto, using(sheet::proofs::SoundSays::few_events))]
fn fine(s: SoundSheet, x: u32) -> bool
    ensures { result ≡ fine_by (rules_in s.entry.sheet.now) x }
{
    !beyond(s.sheet.events, x as u64) & events::allowed(s.sheet, x)
}

// Whether each set is fine.
fn all_fine(s: SoundSheet, sets: &[u32]) -> bool
    ensures { result ≡ all (fine_by (rules_in s.entry.sheet.now)) sets.now }
{
    sets.iter().all(|x| fine(s, *x))
}

// Whether the oldest kept session is closed.
#[tactic(auto, using(sheet::proofs::SoundSays::few_events))]
fn is_oldest_closed(s: SoundSheet, sets: &[u32]) -> bool
    ensures { result ≡ oldest_closed (rules_in s.entry.sheet.now) sets.now }
{
    match sets {
        [] => false,
        [oldest, ..] => events::closed(s.sheet, *oldest),
    }
}

// What 43 names: a set or the row with bits outside the sheet, a set not allowed, or the oldest kept session closed.
pub fn is_unlawful(s: SoundSheet, carried: u64, sets: &[u32]) -> bool
    ensures { result ≡ unlawful_in s.entry.sheet.now carried sets.now }
{
    let lawful = all_fine(s, sets);
    let outside = beyond(s.sheet.nodes, carried);
    let closed = is_oldest_closed(s, sets);
    !lawful | outside | closed
}
