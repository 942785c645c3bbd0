// Reads a run script from standard input, and writes its log, or a table of its runs.
#![tactic(auto)]

mod rows;

use crate::rows::Row;
use scripted::areas::Areas;
use scripted::lines;
use scripted::run::{Mode, Run};
use stdio::{Input, Output};

// The log of the script on standard input, up to a bad line.
pub fn replay(rt: HostRuntime) {
    let mut areas = Areas::ZERO;
    let mut input = Input::new(rt);
    let mut out = Output::new(rt);
    let mut run = Run::passed_over(0, false);
    for _ in 0..u64::MAX {
        let Some(line) = input.next_line() else {
            break;
        };
        if lines::answer(&mut run, line, &mut areas, &mut out).is_none() {
            script::answers::bad_line(&mut out);
            break;
        }
        out.make_room();
        if out.failed() {
            break;
        }
    }
    out.finish("replay", "the log is", input.failed());
}

// How many runs are done, on standard error: at every 64th.
fn progress(rt: HostRuntime, number: u64) {
    if 0 < number && number % 64 == 0 {
        let _ = eprint!(rt; "{number} runs\r");
    }
}

// A table that is written, and the sums of its runs that ended.
#[derive(Drop)]
struct Table {
    rt: HostRuntime,
    out: Output,
    sums: Row,
}

impl Table {
    // A run that another one follows.
    fn end_run(&mut self, run: &Run) {
        progress(self.rt, run.number);
        rows::end_run(run, &mut self.sums, &mut self.out);
        self.out.make_room();
    }

    // The rows of a script's runs but the last, which is `run`, unless a line is bad.
    fn read(&mut self, input: &mut Input, run: &mut Run, areas: &mut Areas) -> Option<()> {
        let mut unseen = Output::nowhere();
        let mut before = *run;
        for _ in 0..u64::MAX {
            let Some(line) = input.next_line() else {
                break;
            };
            // no other line begins a run, and a run is too long to be kept at each
            let begins = matches!(line, [b'n', ..]);
            if begins {
                before = *run;
            }
            lines::answer(run, line, areas, &mut unseen)?;
            run.mode = Mode::Nothing;
            if begins {
                self.end_run(&before);
            }
            if self.out.failed() {
                break;
            }
        }
        Some(())
    }
}

// The table of the runs of the script on standard input, up to a bad line.
pub fn tabulate(rt: HostRuntime) {
    let mut areas = Areas::ZERO;
    let mut input = Input::new(rt);
    let mut run = Run::passed_over(0, true);
    let mut table = Table {
        rt,
        out: Output::new(rt),
        sums: Row::ZERO,
    };
    rows::heading(&mut table.out);
    let read = table.read(&mut input, &mut run, &mut areas);
    if !input.failed() {
        rows::end_run(&run, &mut table.sums, &mut table.out);
        rows::end_all(&table.sums, &mut table.out);
        if read.is_none() {
            script::answers::bad_line(&mut table.out);
        }
    }
    table.out.finish("tabulate", "the table is", input.failed());
}
