// What is written is gathered first. It is handed over when there is no more room, and by `flush`: so many lines that come at once ask the system only now
// and then. Only a write can fail, and that needs a full buffer or `flush`: what was to be written is then still there.
ghost use Rattle.std.specs.Prelude.{◌≡◌, [], ◌∷◌, OnOk, OnErr};
ghost use Rattle.std.specs.Io.KnownBytes.{Keeps, Appends};
ghost use Rattle.answers.specs.Gathered.{gathered, Full, SameWriter};

use arrayvec::ArrayVec;
use itoa::Integer;
use std::io;
use std::io::Write;

// The room for what is to be written.
pub const ROOM: usize = 65536;

const DIGITS: [u8; 16] = *b"0123456789abcdef";

// A writer, and what is still to be written to it. That an error needs a full buffer is said of the answer of each function, which no invariant can say.
// Each also says that the writer is still the one that was lent: without that a caller knows nothing of what its own holds.
// Lines are put together by these methods, not by `write!`: that says nothing of what a failed write leaves.
#[derive(Drop)]
pub struct Gathering<'a, W: Write> {
    to: &'a mut W,
    waiting: ArrayVec<u8, ROOM>,
}

impl<'a, W: Write> Gathering<'a, W> {
    // Nothing waits yet, and nothing was written.
    pub fn new(to: &'a mut W) -> Self
        ensures empty { result.waiting.items ≡ [] }
        ensures same { result.to.now ≡ to.entry.now }
        ensures same_reference { result.to.ghost_name ≡ to.entry.ghost_name }
    {
        Gathering {
            to,
            waiting: ArrayVec::new(),
        }
    }

    // Adds one byte. A full buffer is written first.
    pub fn byte(&mut self, b: u8) -> io::Result<()>
        ensures ok { OnOk result
            (Appends (gathered W.contents self.old) (gathered W.contents self.new) (b ∷ [])) }
        ensures err { OnErr result (Full self.old) }
        ensures kept { OnErr result (self.new.waiting.items ≡ self.old.waiting.items) }
        ensures same_reference { SameWriter self.old self.new }
    {
        if self.waiting.is_full() {
            self.flush()?;
        }
        self.waiting.push(b);
        Ok(())
    }

    pub fn bytes(&mut self, s: &[u8]) -> io::Result<()>
        ensures ok { OnOk result
            (Appends (gathered W.contents self.old) (gathered W.contents self.new) s.now) }
        ensures err { OnErr result (Full self.new) }
        ensures same_reference { SameWriter self.old self.new }
    {
        for b in s {
            self.byte(*b)?;
        }
        Ok(())
    }

    // Writes what waits.
    pub fn flush(&mut self) -> io::Result<()>
        ensures ok { OnOk result
            (Keeps (gathered W.contents self.old) (gathered W.contents self.new)) }
        ensures empty { OnOk result (self.new.waiting.items ≡ []) }
        ensures err { OnErr result (self.new.waiting.items ≡ self.old.waiting.items) }
        ensures same_reference { SameWriter self.old self.new }
    {
        self.to.write_all(self.waiting.as_slice())?;
        self.waiting.clear();
        Ok(())
    }

    pub fn decimal<N: Integer>(&mut self, n: N) -> io::Result<()>
        ensures ok { OnOk result
            (Appends (gathered W.contents self.old) (gathered W.contents self.new) (N.text n)) }
        ensures err { OnErr result (Full self.new) }
        ensures same_reference { SameWriter self.old self.new }
    {
        let mut digits = itoa::Buffer::new();
        self.bytes(digits.format(n).as_bytes())
    }

    // Two digits a byte, and "-" for no bytes.
    pub fn hex(&mut self, s: &[u8]) -> io::Result<()>
        ensures err { OnErr result (Full self.new) }
        ensures same_reference { SameWriter self.old self.new }
    {
        if s.is_empty() {
            self.byte(b'-')?;
        }
        for b in s {
            self.byte(DIGITS[usize::from(*b / 16)])?;
            self.byte(DIGITS[usize::from(*b % 16)])?;
        }
        Ok(())
    }
}

// Hands s over at once: the writer then holds what it held, and s behind it. This says of the writer that was lent what the methods say of a gathering, and
// holds only because `new`, `bytes` and `flush` keep that very reference.
pub fn handed_over<W: Write>(to: &mut W, s: &[u8]) -> io::Result<()>
    ensures { OnOk result (Appends (W.contents to.old) (W.contents to.new) s.now) }
{
    let mut out = Gathering::new(to);
    out.bytes(s)?;
    out.flush()
}
