// The line of each kind of answer. Where a call was refused, the line has "r" and the number of the refusal in place of what the call would say.
#![tactic(auto)]

ghost use Rattle.std.specs.Prelude.{OnErr};
ghost use Rattle.answers.specs.Gathered.{Full, SameWriter};

use buffer::Gathering;
use itoa::Integer;
use monitor::{Counts, Verdict};
use refusals::Refusal;
use std::io;
use std::io::Write;

pub mod buffer;

// A command that could not be read.
pub fn unknown<W: Write>(out: &mut Gathering<W>) -> io::Result<()>
    ensures err { OnErr result (Full out.new) }
    ensures same_reference { SameWriter out.old out.new }
{
    out.bytes(b"?\n")
}

fn refused<W: Write>(out: &mut Gathering<W>, refusal: Refusal) -> io::Result<()>
    ensures err { OnErr result (Full out.new) }
    ensures same_reference { SameWriter out.old out.new }
{
    out.byte(b'r')?;
    out.decimal(u32::from(refusal))
}

// A refusal and nothing else.
fn refusal<W: Write>(out: &mut Gathering<W>, refusal: Refusal) -> io::Result<()>
    ensures err { OnErr result (Full out.new) }
    ensures same_reference { SameWriter out.old out.new }
{
    refused(out, refusal)?;
    out.byte(b'\n')
}

// A call that has nothing to say but that it was accepted.
pub fn accepted<W: Write>(out: &mut Gathering<W>, answer: Result<(), Refusal>) -> io::Result<()>
    ensures err { OnErr result (Full out.new) }
    ensures same_reference { SameWriter out.old out.new }
{
    match answer {
        Ok(()) => out.bytes(b"ok\n"),
        Err(r) => refusal(out, r),
    }
}

// A number behind the letter that says what it is, or the refusal.
fn told<W: Write, N: Integer>(
    out: &mut Gathering<W>,
    letter: u8,
    answer: Result<N, Refusal>,
) -> io::Result<()>
    ensures err { OnErr result (Full out.new) }
    ensures same_reference { SameWriter out.old out.new }
{
    match answer {
        Ok(n) => {
            out.byte(letter)?;
            out.decimal(n)
        }
        Err(r) => refused(out, r),
    }
}

// The session begun.
pub fn session<W: Write>(out: &mut Gathering<W>, answer: Result<u32, Refusal>) -> io::Result<()>
    ensures err { OnErr result (Full out.new) }
    ensures same_reference { SameWriter out.old out.new }
{
    told(out, b's', answer)?;
    out.byte(b'\n')
}

// The length of an image, and the whole buffer that was lent for it: what a refused call left there shows too.
pub fn image<W: Write>(
    out: &mut Gathering<W>,
    answer: Result<usize, Refusal>,
    lent: &[u8],
) -> io::Result<()>
    ensures err { OnErr result (Full out.new) }
    ensures same_reference { SameWriter out.old out.new }
{
    told(out, b'i', answer)?;
    out.byte(b' ')?;
    out.hex(lent)?;
    out.byte(b'\n')
}

// The verdict, and the row of truths in 16 hex digits, its highest byte first.
pub fn verdict<W: Write>(out: &mut Gathering<W>, answer: Result<Verdict, Refusal>) -> io::Result<()>
    ensures err { OnErr result (Full out.new) }
    ensures same_reference { SameWriter out.old out.new }
{
    match answer {
        Ok(Verdict { allow, row }) => {
            out.bytes(if allow { b"allow " } else { b"deny " })?;
            out.hex(&row.to_be_bytes())?;
            out.byte(b'\n')
        }
        Err(r) => refusal(out, r),
    }
}

// Total, let go and kept.
pub fn counts<W: Write>(out: &mut Gathering<W>, answer: Result<Counts, Refusal>) -> io::Result<()>
    ensures err { OnErr result (Full out.new) }
    ensures same_reference { SameWriter out.old out.new }
{
    match answer {
        Ok(Counts { total, gone, kept }) => {
            out.decimal(total)?;
            out.byte(b' ')?;
            out.decimal(gone)?;
            out.byte(b' ')?;
            out.decimal(kept)?;
            out.byte(b'\n')
        }
        Err(r) => refusal(out, r),
    }
}

// The event that an access is, the root that the path lies under and the rest of the path.
pub fn event<W: Write>(
    out: &mut Gathering<W>,
    answer: Result<u8, Refusal>,
    root: &[u8],
    rest: &[u8],
) -> io::Result<()>
    ensures err { OnErr result (Full out.new) }
    ensures same_reference { SameWriter out.old out.new }
{
    match answer {
        Ok(event) => {
            out.byte(b'e')?;
            out.decimal(event)?;
            out.byte(b' ')?;
            out.hex(root)?;
            out.byte(b' ')?;
            out.hex(rest)?;
            out.byte(b'\n')
        }
        Err(r) => refusal(out, r),
    }
}
