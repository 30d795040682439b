// The commands on the monitor, a function for each. Each makes its call on the monitor, and writes one line. A command that cannot be read gives "?" and
// leaves the monitor as it was. A refused call's monitor is taken back as well: that it is unaltered then shows in what follows. Where the line cannot be
// written the monitor is what the call made it.
#![tactic(auto)]

ghost use Rattle.std.specs.Prelude.{OnErr};
ghost use Rattle.answers.specs.Gathered.{Full, SameWriter};

use answers::buffer::Gathering;
use monitor::Monitor;
use std::io;
use std::io::Write;

// Runs the command of this word, with what follows the space behind it.
pub fn run<W: Write>(
    m: &mut Monitor,
    word: &[u8],
    rest: Option<&[u8]>,
    out: &mut Gathering<W>,
) -> io::Result<()>
    ensures err { OnErr result (Full out.new) }
    ensures same_reference { SameWriter out.old out.new }
{
    match (word, rest) {
        (b"begin", None) => begin(m, out),
        (b"record", Some(rest)) => record(m, rest, out),
        (b"check", None) => check(m, out),
        (b"counts", None) => counts(m, out),
        (b"save", Some(rest)) => save(m, rest, out),
        (b"restore", Some(rest)) => restore(m, rest, out),
        (b"poke", Some(rest)) => poke(m, rest, out),
        _ => answers::unknown(out),
    }
}

// begin: the session's number.
fn begin<W: Write>(m: &mut Monitor, out: &mut Gathering<W>) -> io::Result<()>
    ensures err { OnErr result (Full out.new) }
    ensures same_reference { SameWriter out.old out.new }
{
    let begun = m.begin();
    *m = begun.monitor;
    answers::session(out, begun.answer)
}

// The session and the event of S E.
fn session_and_event(rest: &[u8]) -> Option<(u32, u32)> {
    let (session, event) = text::first_word(rest);
    Some((text::decimal(session)?, text::decimal(event?)?))
}

// record S E.
fn record<W: Write>(m: &mut Monitor, rest: &[u8], out: &mut Gathering<W>) -> io::Result<()>
    ensures err { OnErr result (Full out.new) }
    ensures same_reference { SameWriter out.old out.new }
{
    let Some((session, event)) = session_and_event(rest) else {
        return answers::unknown(out);
    };
    let recorded = m.record(session, event);
    *m = recorded.monitor;
    answers::accepted(out, recorded.answer)
}

// check: the verdict, and the row of truths in 16 hex digits.
fn check<W: Write>(m: &Monitor, out: &mut Gathering<W>) -> io::Result<()>
    ensures err { OnErr result (Full out.new) }
    ensures same_reference { SameWriter out.old out.new }
{
    answers::verdict(out, m.check())
}

// counts: total, let go, kept.
fn counts<W: Write>(m: &Monitor, out: &mut Gathering<W>) -> io::Result<()>
    ensures err { OnErr result (Full out.new) }
    ensures same_reference { SameWriter out.old out.new }
{
    answers::counts(out, m.counts())
}

// The longest buffer that `save` is lent.
const LENT: usize = 4096;

// save N: the image's length, and the buffer of N bytes, each EE before the call.
fn save<W: Write>(m: &Monitor, rest: &[u8], out: &mut Gathering<W>) -> io::Result<()>
    ensures err { OnErr result (Full out.new) }
    ensures same_reference { SameWriter out.old out.new }
{
    let Some(n) = text::decimal(rest).filter(|n| *n <= LENT) else {
        return answers::unknown(out);
    };
    let mut buffer = [0xEE; LENT];
    let lent = &mut buffer[..n];
    let saved = image::save(m, lent);
    answers::image(out, saved, lent)
}

// restore HEX.
fn restore<W: Write>(m: &mut Monitor, rest: &[u8], out: &mut Gathering<W>) -> io::Result<()>
    ensures err { OnErr result (Full out.new) }
    ensures same_reference { SameWriter out.old out.new }
{
    let Some(bytes) = text::from_hex(rest) else {
        return answers::unknown(out);
    };
    let restored = image::restore(*m, bytes.as_slice());
    *m = restored.monitor;
    answers::accepted(out, restored.answer)
}

// poke FIELD I V.
fn poke<W: Write>(m: &mut Monitor, rest: &[u8], out: &mut Gathering<W>) -> io::Result<()>
    ensures err { OnErr result (Full out.new) }
    ensures same_reference { SameWriter out.old out.new }
{
    match poke::poke(m, rest) {
        Some(()) => answers::accepted(out, Ok(())),
        None => answers::unknown(out),
    }
}
