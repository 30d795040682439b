// Puts a number into the stored state, whatever comes of it: this is how states that no call made are reached.
#![tactic(auto)]

ghost use Rattle.std.specs.Prelude.{◌≡◌, IfNone};

use monitor::Monitor;

// The lowest bits of a number, for a field that has fewer: std's conversions refuse what does not fit, and `as` has to lose nothing.
fn low32(v: u64) -> u32 {
    (v & 0xFFFF_FFFF) as u32
}

fn low8(v: u64) -> u8 {
    (v & 0xFF) as u8
}

// FIELD I V: puts V at place I of the field. Nothing where the words name no such place and number; the monitor is then as it was.
pub fn poke(m: &mut Monitor, words: &[u8]) -> Option<()>
    ensures { IfNone result (m.new ≡ m.old) }
{
    let (field, rest) = text::first_word(words);
    let (place, number) = text::first_word(rest?);
    let i: usize = text::decimal(place)?;
    let v: u64 = text::decimal(number?)?;
    match field {
        b"total" if i == 0 => m.total = low32(v),
        b"letgo" if i == 0 => m.gone = low32(v),
        b"kept" if i == 0 => m.kept = v as usize,
        b"row" if i < limits::KEPT => m.rows[i] = v,
        // Behind the rows of the kept sessions stands the row that is carried.
        b"row" if i == limits::KEPT => m.carried = v,
        b"set" if i < limits::KEPT => m.sets[i] = low32(v),
        b"events" if i == 0 => m.sheet.events = v as usize,
        b"nodes" if i == 0 => m.sheet.nodes = v as usize,
        b"kind" if i < limits::NODES => m.sheet.node[i].kind = low8(v),
        b"left" if i < limits::NODES => m.sheet.node[i].left = low8(v),
        b"right" if i < limits::NODES => m.sheet.node[i].right = low8(v),
        b"needs" if i < limits::EVENTS => m.sheet.needs[i] = low32(v),
        b"conflicts" if i < limits::EVENTS => m.sheet.conflicts[i] = low32(v),
        _ => return None,
    }
    Some(())
}
