// The table of runs: a row of counters for each, tab-separated, and their sums.
ghost use Rattle.stdio.specs.Behind.{Behind};

use record::Counter;
use script::answers;
use scripted::run::Run;
use stdio::Output;

// What a run counted: the host's counters, its credit, calls that were refused and bytes that were dropped.
#[derive(Clone, Copy)]
pub struct Row {
    stats: [u64; record::COUNTERS],
    credit: u64,
    refused: u64,
    dropped: u64,
}

impl Row {
    // The sums of no rows.
    pub const ZERO: Row = Row {
        stats: [0; record::COUNTERS],
        credit: 0,
        refused: 0,
        dropped: 0,
    };

    // The counters of a run.
    fn of(run: &Run) -> Row {
        Row {
            stats: run.state.stats,
            credit: run.state.audio.credit,
            refused: run.refused,
            dropped: run.dropped,
        }
    }

    // Adds another row, modulo 2^64.
    fn add(&mut self, row: &Row) {
        for (sum, n) in self.stats.iter_mut().zip(&row.stats) {
            *sum = sum.wrapping_add(*n);
        }
        self.credit = self.credit.wrapping_add(row.credit);
        self.refused = self.refused.wrapping_add(row.refused);
        self.dropped = self.dropped.wrapping_add(row.dropped);
    }

    // All cells behind the first, and the row's end.
    fn show(&self, out: &mut Output)
        ensures { Behind 337 out.old out.new }
    {
        let cells = [
            self.stats[Counter::Microframes.place()],
            self.stats[Counter::InFrames.place()],
            self.stats[Counter::OutFrames.place()],
            self.credit,
            self.stats[Counter::BadBlocks.place()],
            self.stats[Counter::InTransfers.place()],
            self.stats[Counter::OutTransfers.place()],
            self.stats[Counter::OutUnderruns.place()],
            self.stats[Counter::Restarts.place()],
            self.stats[Counter::Enumerations.place()],
            self.stats[Counter::MidiDtds.place()],
            self.stats[Counter::MidiAsleep.place()],
            self.stats[Counter::MidiPacketsOut.place()],
            self.stats[Counter::VendorInBytes.place()],
            self.refused,
            self.dropped,
        ];
        for n in cells {
            out.put(b'\t');
            answers::decimal(out, n);
        }
        out.put(b'\n');
    }
}

pub fn heading(out: &mut Output)
    ensures { Behind 215 out.old out.new }
{
    out.append(
        b"run\tmicroframes\tframes received\tframes sent\tcredit\tbad blocks\tinput transfers\toutput transfers\tunderruns\t",
    );
    out.append(
        b"restarts\tenumerations\tMIDI descriptors\tMIDI asleep\tMIDI packets sent\tvendor bytes\trefused calls\tdropped bytes\n",
    );
}

// The row of a run that ended: a run that was passed over has none of its counters, and no run has no row.
pub fn end_run(run: &Run, sums: &mut Row, out: &mut Output)
    ensures { Behind 357 out.old out.new }
{
    if run.number == 0 {
        return;
    }
    answers::decimal(out, run.number);
    if run.length == 0 {
        out.append(b"\tskipped\n");
        return;
    }
    let row = Row::of(run);
    row.show(out);
    sums.add(&row);
}

// The row of the sums.
pub fn end_all(sums: &Row, out: &mut Output)
    ensures { Behind 340 out.old out.new }
{
    out.append(b"all");
    sums.show(out);
}
