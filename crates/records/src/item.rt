// What a record says: its kind and its payload, which travel together.
ghost use Rattle.std.specs.Prelude.{◌≡◌, get_or, drop};

use crate::Kind;

#[derive(Clone, Copy)]
pub struct Item<'a> {
    pub kind: Kind,
    pub payload: &'a [u8],
}

impl<'a> Item<'a> {
    // The payload's byte at i, 0 past the end.
    pub fn byte(self, i: usize) -> u8
        ensures { result ≡ get_or self.entry.payload.now i 0 }
    {
        self.payload.get(i).copied().unwrap_or(0)
    }

    // The payload's bytes from the third on.
    pub fn tail(self) -> &'a [u8]
        ensures { result.now ≡ drop 2 self.entry.payload.now }
    {
        self.payload.get(2..).unwrap_or(&[])
    }
}
