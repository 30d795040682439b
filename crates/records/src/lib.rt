// Records of a sheet: the mark B4 4D, a kind byte, a payload length byte, the payload. What stands at a place of the sheet is a whole record of
// a known kind, with a payload that fits it; or it is broken, as it is past the sheet's end.
#![tactic(auto)]

ghost use Rattle.std.specs.Prelude.{◌≡◌};
ghost use Rattle.refusals.specs.Numbers.{answer};
ghost use Rattle.records.specs.Frames.{framed_at};

use refusals::Refusal;

mod item;
mod kinds;
mod reader;

pub use item::Item;
pub use kinds::{KINDS, Kind, OPERANDS};
pub use reader::{Reader, read_at};

// A record's kind, where its payload starts and how long it is, and where the next record stands.
#[derive(Clone, Copy)]
pub struct Frame {
    pub kind: Kind,
    pub start: usize,
    pub len: usize,
    pub next: usize,
}

// The record at a place of a sheet, which is broken where it is not whole.
#[tactic(auto, unfolding(crate::specs::Frames::framed_at, crate::specs::Frames::frame_at, meaning::specs::Sheet::framed, meaning::specs::Sheet::whole, meaning::specs::Sheet::payload, meaning::specs::Records::marked, meaning::specs::Records::kind_of))]
pub fn step_at(s: &[u8], at: usize) -> Result<Frame, Refusal>
    ensures { answer result ≡ framed_at s.now at }
{
    if s.len() <= at {
        return Err(Refusal::BrokenRecord);
    }
    if s.len() - at < 4 {
        return Err(Refusal::BrokenRecord);
    }
    let len = s[at + 3] as usize;
    let start = at + 4;
    if s.len() - start < len {
        return Err(Refusal::BrokenRecord);
    }
    if s[at] != limits::MARK_FIRST {
        return Err(Refusal::BrokenRecord);
    }
    if s[at + 1] != limits::MARK_SECOND {
        return Err(Refusal::BrokenRecord);
    }
    let kind = Kind::try_from(s[at + 2])?;
    let next = start + len;
    if !kind.fits(&s[start..next]) {
        return Err(Refusal::BrokenRecord);
    }
    Ok(Frame {
        kind,
        start,
        len,
        next,
    })
}
