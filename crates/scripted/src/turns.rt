// Microframes of a run and their lines.
use crate::areas::{Areas, first, first_mut};
use crate::log::{self, Came};
use crate::run::{Mode, Run};
use record::{Answer, State};
use refusal::Refusal;
use script::words::Words;
use stdio::Output;

// How many microframes a line asks for, from what time on and how far apart.
#[derive(Clone, Copy)]
pub struct Asked {
    count: u64,
    time: u64,
    step: u64,
}

impl Asked {
    // `u TIME`.
    pub fn one(words: &mut Words) -> Option<Asked> {
        let time = words.number()?;
        words.end()?;
        Some(Asked {
            count: 1,
            time,
            step: 0,
        })
    }

    // `U COUNT TIME STEP`.
    pub fn some(words: &mut Words) -> Option<Asked> {
        let asked = Asked {
            count: words.number()?,
            time: words.number()?,
            step: words.number()?,
        };
        words.end()?;
        Some(asked)
    }
}

// The line of a microframe, or `outside` where it ended its run.
fn show(run: &Run, areas: &Areas, out: &mut Output) {
    if !run.live {
        out.append(b"outside\n");
        return;
    }
    let count = run.state.answer.received;
    let came = Came::NOTHING.behind(run.settings.cdc, &areas.receive, count);
    out.put(b'u');
    log::show_record(run, came, out);
    if run.mode == Mode::Areas {
        log::show_areas(run, areas, out);
    }
    out.put(b'\n');
}

impl Run {
    // Counts what a microframe answered; a run that does not go `through` ends where it dropped a byte.
    fn count(&mut self, answer: Answer, receive: &[u8]) {
        self.all = self.all.behind(self.settings.cdc, receive, answer.received);
        self.dropped = self.dropped.wrapping_add(answer.dropped);
        self.live = self.through | (answer.dropped == 0);
    }

    // The microframes that are asked for, while the run is live and what they log can be written. A refused one answers zeros.
    pub(crate) fn turns(&mut self, asked: Asked, areas: &mut Areas, out: &mut Output) {
        let mut state = self.state;
        let mut time = asked.time;
        for _ in 0..asked.count {
            if !self.live || out.failed() {
                break;
            }
            if turn(&*self, &mut state, areas, time).is_err() {
                self.count_refused();
            }
            self.count(state.answer, &areas.receive);
            if self.mode != Mode::Nothing || !self.live {
                self.state = state;
                show(&*self, &*areas, out);
                out.make_room();
            }
            time = time.wrapping_add(asked.step);
        }
        self.state = state;
    }
}

// One microframe of a run in a state.
fn turn(run: &Run, state: &mut State, areas: &mut Areas, time: u64) -> Result<(), Refusal> {
    usbhost::run_microframe(
        state,
        run.settings,
        run.packers,
        &mut areas.setups,
        &mut areas.midi,
        &mut areas.serial,
        &mut areas.device,
        first_mut(&mut areas.dynamic, run.length),
        &mut areas.sram,
        &mut areas.page,
        &mut areas.reply,
        &mut areas.config,
        &mut areas.receive,
        &mut areas.cables,
        &mut areas.received,
        first(&areas.sending, run.sending_words()),
        time,
    )
}
