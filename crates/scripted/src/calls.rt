// The calls that a line makes beside microframes. A bad line has no answer, and leaves the run as it was.
ghost use Rattle.std.specs.Prelude.{◌≡◌, IsNone};

use crate::areas::{Areas, BYTES, first_mut};
use crate::log;
use crate::run::{Mode, Run};
use crate::start::read_flag;
use bus::PAGE;
use record::{QUEUE, RING, SETUP_BYTES, State};
use refusal::Refusal;
use script::words::Words;
use script::{answers, hash};
use stdio::Output;
use usbhost::Parts;

// The number that ends a line.
fn read_last(words: &mut Words) -> Option<u64> {
    let number = words.number()?;
    words.end()?;
    Some(number)
}

// Twelve words, which end a line.
fn read_frame(words: &mut Words) -> Option<[u32; 12]> {
    let mut frame = [0; 12];
    for word in &mut frame {
        *word = words.word()?;
    }
    words.end()?;
    Some(frame)
}

impl Run {
    // `h M`: what a microframe logs.
    pub(crate) fn set_mode(&mut self, words: &mut Words) -> Option<()>
        ensures { IsNone result → self.new ≡ self.old }
    {
        self.mode = match read_last(words)? {
            0 => Mode::Nothing,
            1 => Mode::Record,
            2 => Mode::Areas,
            _ => return None,
        };
        Some(())
    }

    // `j GO`: whether the run goes on where a byte was dropped.
    pub(crate) fn set_through(&mut self, words: &mut Words) -> Option<()>
        ensures { IsNone result → self.new ≡ self.old }
    {
        let go = read_flag(words)?;
        words.end()?;
        self.through = self.always | go;
        Some(())
    }

    // `x 1` and `x 2`: what else the last microframe answered.
    pub(crate) fn show_answer(
        &self,
        words: &mut Words,
        areas: &Areas,
        out: &mut Output,
    ) -> Option<()> {
        match read_last(words)? {
            1 => log::show_counts(self.state.answer, out),
            2 => log::show_cables(self, areas, out),
            _ => return None,
        }
        Some(())
    }

    // The record by the parts that a call reads.
    fn parts<'a>(&self, setups: &'a [u8; SETUP_BYTES]) -> Parts<'a> {
        Parts {
            state: self.state,
            spans: self.settings.spans,
            packers: self.packers,
            setups,
        }
    }

    // A refused call.
    fn refuse(&mut self, refusal: Refusal, out: &mut Output) {
        self.count_refused();
        answers::refused(out, refusal);
    }

    // The answer to a call that gives nothing but the state that follows.
    fn store(&mut self, called: Result<State, Refusal>, out: &mut Output) {
        match called {
            Ok(state) => {
                self.state = state;
                out.append(b"ok\n");
            }
            Err(refusal) => self.refuse(refusal, out),
        }
    }

    // `r SIZE OFF`: a device read.
    pub(crate) fn read_device(
        &mut self,
        words: &mut Words,
        areas: &Areas,
        out: &mut Output,
    ) -> Option<()>
        ensures { IsNone result → self.new ≡ self.old }
    {
        let size = words.word()?;
        let off = words.word()?;
        words.end()?;
        let read = usbhost::read_device(self.parts(&areas.setups), &areas.page, off, size);
        match read {
            Ok(value) => answers::single(out, b'r', u64::from(value)),
            Err(refusal) => self.refuse(refusal, out),
        }
        Some(())
    }

    // `d SIZE OFF VALUE`: a device write.
    pub(crate) fn write_device(
        &mut self,
        words: &mut Words,
        setups: &[u8; SETUP_BYTES],
        page: &mut [u8; PAGE],
        out: &mut Output,
    ) -> Option<()>
        ensures { IsNone result → self.new ≡ self.old }
    {
        let size = words.word()?;
        let off = words.word()?;
        let value = words.word()?;
        words.end()?;
        let written = usbhost::write_device(self.parts(setups), page, off, size, value);
        self.store(written, out);
        Some(())
    }

    // `m BYTES`, and `c CABLE BYTES` behind its cable: a MIDI send. What is above 255 counts as 255, which is no cable either.
    pub(crate) fn send_midi(
        &mut self,
        cable: u64,
        words: &mut Words,
        setups: &[u8; SETUP_BYTES],
        midi: &mut [u8; QUEUE],
        buffer: &mut [u8; BYTES],
        out: &mut Output,
    ) -> Option<()>
        ensures { IsNone result → self.new ≡ self.old }
    {
        let bytes = words.bytes(buffer)?;
        let sent = usbhost::send_midi(self.parts(setups), cable.min(255) as u8, bytes, midi);
        if let Ok(sent) = sent {
            let packers = sent.packers;
            self.packers = packers;
        }
        self.store(sent.map(|sent| sent.state), out);
        Some(())
    }

    // `s BYTES`: a serial send.
    pub(crate) fn send_serial(
        &mut self,
        words: &mut Words,
        setups: &[u8; SETUP_BYTES],
        serial: &mut [u8; QUEUE],
        buffer: &mut [u8; BYTES],
        out: &mut Output,
    ) -> Option<()>
        ensures { IsNone result → self.new ≡ self.old }
    {
        let bytes = words.bytes(buffer)?;
        let sent = usbhost::send_serial(self.parts(setups), bytes, serial);
        self.store(sent, out);
        Some(())
    }

    // `g W0 .. W11`: a frame given.
    pub(crate) fn give_frame(
        &mut self,
        words: &mut Words,
        setups: &[u8; SETUP_BYTES],
        sending: &mut [u32; RING],
        out: &mut Output,
    ) -> Option<()>
        ensures { IsNone result → self.new ≡ self.old }
    {
        let frame = read_frame(words)?;
        let given = usbhost::give_frame(
            self.parts(setups),
            &frame,
            first_mut(sending, self.sending_words()),
        );
        self.store(given, out);
        Some(())
    }

    // The oldest frame that came, where there is one.
    fn next_frame(&mut self, areas: &Areas) -> Result<Option<[u32; 12]>, Refusal> {
        let taken = usbhost::take_frame(self.parts(&areas.setups), &areas.received)?;
        self.state = taken.next;
        Ok(taken.frame)
    }

    // `t`: a frame taken.
    pub(crate) fn take_frame(
        &mut self,
        words: &Words,
        areas: &Areas,
        out: &mut Output,
    ) -> Option<()>
        ensures { IsNone result → self.new ≡ self.old }
    {
        words.end()?;
        match self.next_frame(areas) {
            Ok(Some(frame)) => {
                out.put(b't');
                for word in frame {
                    answers::field(out, u64::from(word));
                }
                out.put(b'\n');
            }
            Ok(None) => out.append(b"t empty\n"),
            Err(refusal) => self.refuse(refusal, out),
        }
        Some(())
    }

    // Up to `most` frames taken, until the ring is empty: how many, and the hash of their words.
    fn drain(&mut self, most: u64, areas: &Areas) -> Result<Drained, Refusal> {
        let mut drained = Drained {
            count: 0,
            hash: hash::START,
        };
        for _ in 0..most.min(self.state.audio.received.len as u64) {
            let Some(frame) = self.next_frame(areas)? else {
                break;
            };
            drained.count = drained.count.wrapping_add(1);
            drained.hash = log::mixed_words(drained.hash, &frame);
        }
        Ok(drained)
    }

    // `T COUNT`: up to that many frames taken.
    pub(crate) fn take_frames(
        &mut self,
        words: &mut Words,
        areas: &Areas,
        out: &mut Output,
    ) -> Option<()>
        ensures { IsNone result → self.new ≡ self.old }
    {
        let most = read_last(words)?;
        match self.drain(most, areas) {
            Ok(drained) => {
                out.put(b'T');
                answers::field(out, drained.count);
                answers::field(out, drained.hash);
                out.put(b'\n');
            }
            Err(refusal) => self.refuse(refusal, out),
        }
        Some(())
    }
}

// How many frames were taken, and the hash of their words.
#[derive(Clone, Copy)]
struct Drained {
    count: u64,
    hash: u64,
}
