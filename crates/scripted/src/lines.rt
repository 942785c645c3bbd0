// A line of a script and its answer.
ghost use Rattle.std.specs.Prelude.{◌≡◌, ◌≤◌, length, IsNone};

use crate::areas::{Areas, first_mut};
use crate::log;
use crate::run::Run;
use crate::start::Start;
use crate::turns::Asked;
use script::words::{self, Words};
use script::{answers, memory};
use stdio::Output;

// `n ..`: a new run, which finds every area zero.
fn start(run: &mut Run, words: &mut Words, areas: &mut Areas, out: &mut Output) -> Option<()>
    ensures { IsNone result → run.new ≡ run.old }
{
    let start = Start::read(words)?;
    areas.clear(run.used());
    *run = Run::behind(&*run, start);
    if run.live {
        answers::single(out, b'n', run.number);
    } else {
        out.append(b"skipped\n");
    }
    Some(())
}

// A line that writes to the device, sends or gives: each call is lent what it changes, and the setups to read.
fn change(
    run: &mut Run,
    letter: u8,
    words: &mut Words,
    areas: &mut Areas,
    out: &mut Output,
) -> Option<()>
    ensures { IsNone result → run.new ≡ run.old }
{
    let setups = &areas.setups;
    let bytes = &mut areas.bytes;
    match letter {
        b'd' => run.write_device(words, setups, &mut areas.page, out),
        b'm' => run.send_midi(0, words, setups, &mut areas.midi, bytes, out),
        b'c' => run.send_midi(words.number()?, words, setups, &mut areas.midi, bytes, out),
        b's' => run.send_serial(words, setups, &mut areas.serial, bytes, out),
        _ => run.give_frame(words, setups, &mut areas.sending, out),
    }
}

// A line of a live run; the windows have as much of dynamic memory as the run.
fn call(run: &mut Run, letter: u8, line: &[u8], areas: &mut Areas, out: &mut Output) -> Option<()>
    ensures { IsNone result → run.new ≡ run.old }
{
    let mut words = Words::new(line);
    match letter {
        b'u' => run.turns(Asked::one(&mut words)?, areas, out),
        b'U' => run.turns(Asked::some(&mut words)?, areas, out),
        b'o' => {
            words.end()?;
            log::observe(&*run, &*areas, out);
        }
        b'h' => run.set_mode(&mut words)?,
        b'j' => run.set_through(&mut words)?,
        b'x' => run.show_answer(&mut words, &*areas, out)?,
        b'r' => run.read_device(&mut words, &*areas, out)?,
        b'd' | b'm' | b'c' | b's' | b'g' => change(run, letter, &mut words, areas, out)?,
        b't' => run.take_frame(&words, &*areas, out)?,
        b'T' => run.take_frames(&mut words, &*areas, out)?,
        _ => {
            let dynamic = first_mut(&mut areas.dynamic, run.length);
            memory::line(letter, line, dynamic, &mut areas.sram, &mut areas.page, out)?;
        }
    }
    Some(())
}

// The answer to a line, where it is a good one: empty, a comment, a new run, or a line of a run, which is passed over unless the run is live. A line
// of 65,536 bytes is the start of one that the buffer does not hold.
pub fn answer(run: &mut Run, line: &[u8], areas: &mut Areas, out: &mut Output) -> Option<()>
    ensures bad { IsNone result → run.new ≡ run.old }
    ensures empty { length line.now ≡ 0 → run.new ≡ run.old }
    ensures long { 65536 ≤ length line.now → IsNone result }
{
    if 65_536 <= line.len() {
        return None;
    }
    if let [] | [b'#', ..] = line {
        return Some(());
    }
    match words::letter(line)? {
        b'n' => start(run, &mut Words::new(line), areas, out),
        letter if run.live => call(run, letter, line, areas, out),
        _ => Some(()),
    }
}
