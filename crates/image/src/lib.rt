// The saved image: a monitor's counts, the row that it carries and its kept sessions as bytes, and back. Rows are not written: they are made anew.
#![tactic(auto)]

ghost use Rattle.std.specs.Prelude.{◌≡◌};
ghost use Rattle.refusals.specs.Numbers.{answer};
ghost use Rattle.monitor.specs.Calls.{outcome};
ghost use Rattle.image.specs.Images.{save_of, buffer_after, restore_of};

use monitor::{Monitor, Outcome};
use refusals::Refusal;
use sheet::SoundSheet;

mod numbers;
mod reading;
mod writing;

use reading::Header;

// Puts the image at the front of the buffer, and answers its length.
pub fn save(monitor: &Monitor, out: &mut [u8]) -> Result<usize, Refusal>
    ensures { (answer result ≡ save_of monitor.now out.old) × (out.new ≡ buffer_after monitor.now out.old) }
{
    if monitor.is_bad() {
        return Err(Refusal::BadState);
    }
    let length = limits::HEADER + limits::SESSION * monitor.kept;
    if out.len() < length {
        return Err(Refusal::ShortBuffer);
    }
    let header = Header {
        total: monitor.total,
        gone: monitor.gone,
        carried: monitor.carried,
    };
    writing::put(header, &monitor.sets[..monitor.kept], out);
    Ok(length)
}

// The monitor that the image's bytes say, judged by the sheet of the one handed in.
pub fn restore(mut m: Monitor, bytes: &[u8]) -> Outcome<()>
    ensures { outcome result ≡ restore_of m bytes.now }
{
    if m.is_bad() {
        return Outcome {
            monitor: m,
            answer: Err(Refusal::BadState),
        };
    }
    let Some(header) = reading::read_header(bytes) else {
        return Outcome {
            monitor: m,
            answer: Err(Refusal::MalformedImage),
        };
    };
    let kept = (bytes.len() - limits::HEADER) / limits::SESSION;
    let sets = reading::sets_in(bytes);
    let sheet = SoundSheet { sheet: &m.sheet };
    if reading::is_unlawful(sheet, header.carried, &sets[..kept]) {
        return Outcome {
            monitor: m,
            answer: Err(Refusal::UnlawfulImage),
        };
    }
    let mut rows = [0u64; limits::KEPT];
    window::rows_from(sheet, header.carried, &sets, &mut rows, 0, kept);
    m.total = header.total;
    m.gone = header.gone;
    m.kept = kept;
    m.carried = header.carried;
    m.sets = sets;
    m.rows = rows;
    Outcome {
        monitor: m,
        answer: Ok(()),
    }
}
