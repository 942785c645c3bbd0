// What a run of the leaf crates has, and their answer to each line.
ghost use Rattle.stdio.specs.Behind.{Behind};

use bench::{Memory, Part, Queue};
use gptimers::Timers;
use midi::Packer;
use refusal::Refusal;
use script::words::{self, Words};
use script::{answers, hash};
use shown::{held_hash, show_packer, show_timer};
use stdio::Output;

// The interrupt line, the timers, and the packer with its queue.
#[derive(Drop)]
pub struct Leaves {
    line: bool,
    timers: Timers,
    packer: Packer,
    queue: Queue,
}

impl Leaves {
    pub fn new() -> Self {
        Leaves {
            line: false,
            timers: no_timers(),
            packer: Packer::new(),
            queue: Queue::new(),
        }
    }

    // `d SIZE OFF VALUE`: a device write.
    fn device_write(&mut self, line: &[u8], page: &mut [u8], out: &mut Output) -> Option<()> {
        let mut words = Words::new(line);
        let size = words.word()?;
        let off = words.word()?;
        let value = words.word()?;
        words.end()?;
        match usbdev::write(page, off, size, value, self.line) {
            Ok(on) => {
                self.line = on;
                answers::outcome(out, Ok(()));
            }
            Err(refusal) => answers::refused(out, refusal),
        }
        Some(())
    }

    // `m BYTES`: a MIDI send on cable 0.
    fn send(&mut self, line: &[u8], out: &mut Output) -> Option<()> {
        let mut buffer = [0u8; 32768];
        let bytes = Words::new(line).bytes(&mut buffer)?;
        match send_midi(&mut self.queue, self.packer, bytes) {
            Ok(packer) => {
                self.packer = packer;
                answers::outcome(out, Ok(()));
            }
            Err(refusal) => answers::refused(out, refusal),
        }
        Some(())
    }

    // `u TIME`: a microframe of the timers, which do not ask the time.
    fn microframe(&mut self, line: &[u8], page: &mut [u8], out: &mut Output) -> Option<()> {
        let mut words = Words::new(line);
        words.number()?;
        words.end()?;
        match gptimers::checked_gptimers(page, self.timers, self.line) {
            Ok(timed) => {
                self.timers = timed.next;
                self.line = timed.line;
                show_timers(self.timers, self.line, out);
            }
            Err(refusal) => answers::refused(out, refusal),
        }
        Some(())
    }

    // `o`: the line, the packer and the queue.
    fn observe(&self, out: &mut Output) {
        let queued = self.queue.as_slice();
        out.put(b'o');
        answers::flag(out, self.line);
        show_packer(self.packer, out);
        answers::field(out, queued.len() as u64);
        answers::field(out, hash::hash_all(queued));
        answers::field(out, held_hash(self.packer));
        out.put(b'\n');
    }
}

impl Part for Leaves {
    fn start(&mut self, _words: Words<'_>) {
        self.line = false;
        self.timers = no_timers();
        self.packer = Packer::new();
        self.queue.clear();
    }

    fn answer(&mut self, line: &[u8], memory: &mut Memory, out: &mut Output) -> Option<()> {
        let letter = words::letter(line)?;
        match letter {
            b'r' => device_read(line, &memory.page, out),
            b'd' => self.device_write(line, &mut memory.page, out),
            b'm' => self.send(line, out),
            b'u' => self.microframe(line, &mut memory.page, out),
            b'o' if line.len() == 1 => {
                self.observe(out);
                Some(())
            }
            _ => memory.line(letter, line, out),
        }
    }
}

// The packets of some bytes behind those queued, and the packer after them.
fn send_midi(queue: &mut Queue, packer: Packer, bytes: &[u8]) -> Result<Packer, Refusal> {
    let held = queue.held;
    let sent = midi::send(packer, 0, bytes, &mut queue.bytes, held)?;
    queue.held = sent.held;
    Ok(sent.packer)
}

// Neither timer is loaded.
fn no_timers() -> Timers {
    Timers {
        zero: None,
        one: None,
    }
}

// `r SIZE OFF`: a device read.
fn device_read(line: &[u8], page: &[u8], out: &mut Output) -> Option<()> {
    let mut words = Words::new(line);
    let size = words.word()?;
    let off = words.word()?;
    words.end()?;
    match usbdev::read(page, off, size) {
        Ok(value) => answers::single(out, b'r', u64::from(value)),
        Err(refusal) => answers::refused(out, refusal),
    }
    Some(())
}

fn show_timers(timers: Timers, on: bool, out: &mut Output)
    ensures { Behind 42 out.old out.new }
{
    out.put(b'u');
    show_timer(timers.zero, out);
    show_timer(timers.one, out);
    answers::flag(out, on);
    out.put(b'\n');
}
