// Runs the library on commands: takes the input line by line, and writes one line for each command. A line is run by `lines`.
#![tactic(auto)]

ghost use Rattle.std.specs.Prelude.{◌≡◌, ◌⊎◌, [], OnErr};
ghost use Rattle.answers.specs.Gathered.{Full};

use answers::buffer::Gathering;
use arrayvec::ArrayVec;
use lines::State;
use std::io;
use std::io::{Read, Write};

// The room for a line. A line that fills it is too long, so that its end need not be kept.
const ROOM: usize = 16384;

type Line = ArrayVec<u8, ROOM>;

// The input is read in pieces of at most so many bytes.
const PIECE: usize = 65536;

// What the commands work on, what there is of the next line, and what is to be written.
#[derive(Drop)]
struct Run<'a, W: Write> {
    state: State,
    line: Line,
    out: Gathering<'a, W>,
}

// Adds the bytes to the line, up to the room: all at once, for a comment may be long.
fn gather(line: &mut Line, bytes: &[u8]) {
    let fits = text::front(bytes, line.remaining_capacity());
    line.try_extend_from_slice(fits).unwrap();
}

impl<'a, W: Write> Run<'a, W> {
    // Reads the next piece of the input, and says how many bytes it has: none where the input has ended. What is to be written is written first, since
    // reading may wait: so another program can send a command, read its answer, and only then send the next.
    fn more<R: Read>(&mut self, from: &mut R, piece: &mut [u8]) -> io::Result<usize>
        ensures err { OnErr result ((self.new.out.waiting.items ≡ self.old.out.waiting.items) ⊎ (self.new.out.waiting.items ≡ [])) }
    {
        self.out.flush()?;
        from.read(piece)
    }

    // Runs the line, and begins the next. An empty one and a comment, however long, are passed over.
    fn finish(&mut self) -> io::Result<()>
        ensures err { OnErr result (Full self.new.out) }
    {
        match self.line.as_slice() {
            [] | [b'#', ..] => {}
            _ if self.line.is_full() => answers::unknown(&mut self.out)?,
            line => lines::run(&mut self.state, line, &mut self.out)?,
        }
        self.line.clear();
        Ok(())
    }

    // Takes a piece of the input: what ends a line runs it, and what is left over waits in the line for the next piece.
    fn feed(&mut self, piece: &[u8]) -> io::Result<()>
        ensures err { OnErr result (Full self.new.out) }
    {
        for part in piece.split_inclusive(|b| *b == b'\n') {
            match part.strip_suffix(b"\n") {
                Some(end) => {
                    gather(&mut self.line, end);
                    self.finish()?;
                }
                None => gather(&mut self.line, part),
            }
        }
        Ok(())
    }
}

// Answers what is read with what is written, until the input ends. A read or a write that fails ends the run with its error.
pub fn serve<R: Read, W: Write>(from: &mut R, to: &mut W) -> io::Result<()> {
    let mut run = Run {
        state: State::new(),
        line: Line::new(),
        out: Gathering::new(to),
    };
    let mut piece = [0; PIECE];
    // Nothing says that an input ends, so the turns are counted, up to a number that no run reaches.
    for _ in 0..u64::MAX {
        let n = run.more(from, &mut piece)?;
        if n == 0 {
            break;
        }
        run.feed(text::front(&piece, n))?;
    }
    // The last line may lack its newline.
    run.finish()?;
    run.out.flush()
}
