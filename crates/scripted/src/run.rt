// The state of a run: the host by its parts, and what its lines chose and counted.
ghost use Rattle.std.specs.Prelude.{◌≡◌, ◌≤◌, false};

use crate::areas::{DYNAMIC, Used};
use crate::log::Came;
use crate::start::Start;
use midi::{CABLES, Packer};
use record::{Counter, Settings, State};

// What a microframe logs: nothing, the record, or the record and the hashes of the areas.
#[derive(Clone, Copy, PartialEq, Eq)]
pub enum Mode {
    Nothing,
    Record,
    Areas,
}

// What a run holds beside its areas: `length` bytes of dynamic memory, `space` frames of the sending ring, how many calls were refused and bytes
// dropped, and what came in all. A run that is not live passes over its lines. One that goes `through`, by a line of its own or because its
// program `always` does, stays live where a byte was dropped.
#[derive(Clone, Copy)]
pub struct Run {
    pub number: u64,
    pub live: bool,
    pub through: bool,
    pub always: bool,
    pub mode: Mode,
    pub length: usize,
    pub space: usize,
    pub refused: u64,
    pub dropped: u64,
    pub settings: Settings,
    pub state: State,
    pub packers: [Packer; CABLES],
    pub all: Came,
}

// The words of so many frames, or of as many as a ring holds at most.
fn ring_words(frames: usize) -> usize
    ensures { result ≤ 576000 }
{
    frames.min(record::RING_FRAMES) * 12
}

impl Run {
    // A run that is passed over; so is what stands before the first one, which has the number 0.
    pub fn passed_over(number: u64, always: bool) -> Run
        ensures { (result.number ≡ number) × (result.live ≡ false) }
    {
        Run {
            number,
            live: false,
            through: always,
            always,
            mode: Mode::Record,
            length: 0,
            space: 0,
            refused: 0,
            dropped: 0,
            settings: usbhost::no_settings(),
            state: usbhost::new_state(),
            packers: [Packer::new(); CABLES],
            all: Came::NOTHING,
        }
    }

    // The run behind another one; one with a longer dynamic memory than 1 MiB is passed over.
    pub(crate) fn behind(before: &Run, start: Start) -> Run {
        let number = before.number.wrapping_add(1);
        let passed = Run::passed_over(number, before.always);
        if DYNAMIC < start.length {
            return passed;
        }
        Run {
            live: true,
            length: start.length,
            space: start.space,
            settings: start.settings,
            ..passed
        }
    }

    // The words of its sending ring.
    pub(crate) fn sending_words(&self) -> usize {
        ring_words(self.space)
    }

    // One refused call more.
    pub(crate) fn count_refused(&mut self) {
        self.refused = self.refused.wrapping_add(1);
    }

    // How much it may have written. A ring is written from its start on, a frame behind the other, and the frames given are those sent but for
    // the missing ones, and those left.
    pub(crate) fn used(&self) -> Used {
        let state = self.state;
        let underruns = state.counter(Counter::OutUnderruns);
        let sent = state.counter(Counter::OutFrames).wrapping_sub(underruns);
        let given = sent.wrapping_add(state.audio.sending.len as u64);
        let came = self.all.midi.count.wrapping_add(self.all.serial.count);
        Used {
            dynamic: self.length,
            receive: came as usize,
            received: ring_words(state.counter(Counter::InFrames) as usize),
            sending: ring_words(given as usize),
        }
    }
}
