// One line: which command it is, and what the commands work on. Those on a sheet's bytes are here, a function for each; those on the monitor are in `calls`.
// Each works on the state, and writes one line. A command that cannot be read gives "?" and leaves the state as it was. Where the line cannot be written the
// state is what the command made it.
#![tactic(auto)]

ghost use Rattle.std.specs.Prelude.{OnErr};
ghost use Rattle.answers.specs.Gathered.{Full, SameWriter};

use answers::buffer::Gathering;
use monitor::Monitor;
use sheet::Sheet;
use std::io;
use std::io::Write;
use text::{Bytes, ROOM};

// The bytes of the last sheet and how many there are, accepted or not; and the monitor at hand, all zeros until a sheet was accepted. The bytes stand in an
// array with their number beside it, so that a state is plain data, which may be copied.
#[derive(Clone, Copy)]
pub struct State {
    pub sheet: [u8; ROOM],
    pub len: usize,
    pub monitor: Monitor,
}

impl State {
    pub fn new() -> Self {
        Self {
            sheet: [0; ROOM],
            len: 0,
            monitor: Monitor::new(Sheet::empty()),
        }
    }
}

// Runs the command that the line's first word names.
pub fn run<W: Write>(state: &mut State, line: &[u8], out: &mut Gathering<W>) -> io::Result<()>
    ensures err { OnErr result (Full out.new) }
    ensures same_reference { SameWriter out.old out.new }
{
    let (word, rest) = text::first_word(line);
    match (word, rest) {
        (b"sheet", Some(rest)) => take_sheet(state, rest, out),
        (b"path", Some(rest)) => ask_path(state, rest, out),
        (b"read", Some(path)) => ask(state, 0, path, out),
        (b"write", Some(path)) => ask(state, 1, path, out),
        _ => calls::run(&mut state.monitor, word, rest, out),
    }
}

// sheet HEX: whether the bytes load. They are kept either way, for the path questions; an accepted sheet makes a fresh monitor.
fn take_sheet<W: Write>(state: &mut State, rest: &[u8], out: &mut Gathering<W>) -> io::Result<()>
    ensures err { OnErr result (Full out.new) }
    ensures same_reference { SameWriter out.old out.new }
{
    let Some(bytes) = text::from_hex(rest) else {
        return answers::unknown(out);
    };
    let loaded = sheet::load(bytes.as_slice());
    state.len = bytes.len();
    state.sheet[..bytes.len()].copy_from_slice(bytes.as_slice());
    state.sheet[bytes.len()..].fill(0);
    if let Ok(sheet) = loaded {
        state.monitor = Monitor::new(sheet);
    }
    answers::accepted(out, loaded.map(|_| ()))
}

// The access and the path of A HEX.
fn access_and_path(rest: &[u8]) -> Option<(u32, Bytes)> {
    let (access, path) = text::first_word(rest);
    Some((text::decimal(access)?, text::from_hex(path?)?))
}

// path A HEX: the question for access A and these bytes.
fn ask_path<W: Write>(state: &State, rest: &[u8], out: &mut Gathering<W>) -> io::Result<()>
    ensures err { OnErr result (Full out.new) }
    ensures same_reference { SameWriter out.old out.new }
{
    let Some((access, path)) = access_and_path(rest) else {
        return answers::unknown(out);
    };
    ask(state, access, path.as_slice(), out)
}

// read PATH, write PATH: the question for the path as it stands. The event, the root and the rest of the path, or the number of the refusal.
fn ask<W: Write>(state: &State, access: u32, path: &[u8], out: &mut Gathering<W>) -> io::Result<()>
    ensures err { OnErr result (Full out.new) }
    ensures same_reference { SameWriter out.old out.new }
{
    let sheet = text::front(&state.sheet, state.len);
    let event = path::event_of(sheet, access, path);
    let root = path::root_of(sheet, access, path);
    let rest = path::rest_of(sheet, access, path);
    answers::event(out, event, root, rest)
}
