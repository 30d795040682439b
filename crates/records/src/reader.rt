// Reading a sheet by holding it: thin functions over `step_at`.
ghost use Rattle.std.specs.Prelude.{◌≡◌};
ghost use Rattle.refusals.specs.Numbers.{answer};
ghost use Rattle.records.specs.Frames.{framed_at};

use crate::{Frame, step_at};
use refusals::Refusal;

// A reader holds the sheet's bytes and its place in them.
#[derive(Clone, Copy)]
pub struct Reader<'a> {
    pub bytes: &'a [u8],
    pub at: usize,
}

impl<'a> Reader<'a> {
    pub fn new(bytes: &'a [u8]) -> Reader<'a>
        ensures { (result.bytes ≡ bytes.entry) × (result.at ≡ 0) }
    {
        Reader { bytes, at: 0 }
    }

    pub fn moved(self, at: usize) -> Reader<'a>
        ensures { (result.bytes ≡ self.entry.bytes) × (result.at ≡ at) }
    {
        Reader {
            bytes: self.bytes,
            at,
        }
    }

    pub fn next(self) -> Result<Frame, Refusal>
        ensures { answer result ≡ framed_at self.entry.bytes.now self.entry.at }
    {
        step_at(self.bytes, self.at)
    }
}

// What stands at a place, read through a reader: loading and searching stand on this, and keep the place, which a record moves by its own length.
pub fn read_at(s: &[u8], at: usize) -> Result<Frame, Refusal>
    ensures { answer result ≡ framed_at s.now at }
{
    Reader::new(s).moved(at).next()
}
