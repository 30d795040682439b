// One line of text, taken apart: its words, decimal numbers, and bytes in hexadecimal. Every function takes any text at all and says what it finds, so
// that a caller has nothing to show first.
#![tactic(auto)]

ghost use Rattle.std.specs.Prelude.{◌≡◌, ◌≢◌, ◌<◌, ◌++◌, ◌∷◌, take, drop, slice_index, EachIndex, MatchOption, IfSome, Ok};

use arrayvec::ArrayVec;
use std::str;
use std::str::FromStr;

// The first n bytes of s, or all of it where it has fewer.
pub fn front(s: &[u8], n: usize) -> &[u8]
    ensures { result.now ≡ take n s.now }
{
    s.get(..n).unwrap_or(s)
}

// What follows the first n bytes of s: nothing where it has fewer.
pub fn behind(s: &[u8], n: usize) -> &[u8]
    ensures { result.now ≡ drop n s.now }
{
    s.get(n..).unwrap_or(&[])
}

// The first word of s, and what follows the space behind it: nothing where s has no space.
pub fn first_word(s: &[u8]) -> (&[u8], Option<&[u8]>)
    ensures parts { MatchOption result.1 (result.0.now ≡ s.now) (λ rest. s.now ≡ result.0.now ++ 32 ∷ rest.now) }
    ensures word { EachIndex result.0.now (λ k. slice_index result.0.now k ≢ 32) }
{
    match s.iter().position(|c| *c == b' ') {
        Some(n) => (&s[..n], Some(&s[n + 1..])),
        None => (s, None),
    }
}

// The zeros in front aside, no whole number takes more bytes: a sign, and the digits of the greatest of 128 bits.
const DIGITS: usize = 40;

// The whole number that s says in decimal, if that is all it says and the number fits.
pub fn decimal<N: FromStr>(s: &[u8]) -> Option<N>
where
    N::Err: Drop,
    ensures { IfSome result (λ n. (slice_index s.now 0 ≢ 43) × N.from_str_gives s.now (Ok n)) }
{
    // `parse` takes a plus sign.
    if s.starts_with(b"+") {
        return None;
    }
    // A word too long for a number may be long indeed, and is not read through.
    let zeros = s.iter().position(|c| *c != b'0');
    if zeros.is_some_and(|n| DIGITS < s.len() - n) {
        return None;
    }
    str::from_utf8(s).ok()?.parse().ok()
}

// What two hexadecimal digits say.
fn pair(s: &[u8]) -> Option<u8> {
    let [high, low] = s else {
        return None;
    };
    let high = char::from(*high).to_digit(16)?;
    let low = char::from(*low).to_digit(16)?;
    Some((high * 16 + low) as u8)
}

// Whether s is one "-", with nothing but spaces around it: how no bytes are written, so that they are not mistaken for a text that was forgotten.
fn is_dash(s: &[u8]) -> bool {
    s.iter().copied().filter(|c| *c != b' ').eq(*b"-")
}

// How many bytes a text may say: twice what a sheet has, so that one too long is judged and not misread.
pub const ROOM: usize = 8192;

pub type Bytes = ArrayVec<u8, ROOM>;

// The bytes that s says. Spaces and "|" may stand between the pairs, before them and behind them, but not inside one. A text with no pair says nothing,
// but for one "-" (no bytes), and so does one with more bytes than there is room for.
pub fn from_hex(s: &[u8]) -> Option<Bytes> {
    let mut said = Bytes::new();
    if is_dash(s) {
        return Some(said);
    }
    let mut rest = s;
    while let Some(n) = rest.iter().position(|c| *c != b' ' && *c != b'|') {
        let (digits, behind) = rest[n..].split_at_checked(2)?;
        if said.is_full() {
            return None;
        }
        said.push(pair(digits)?);
        rest = behind;
    }
    if said.is_empty() {
        return None;
    }
    Some(said)
}
