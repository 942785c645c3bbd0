// A request on endpoint 0 that asks the device for 64 bytes, a microframe at a time: data, then status.
ghost use Rattle.bus.specs.Windows.{SameWindows};

use crate::frames;
use bus::Windows;

// A request: whether its data stage is over, and its reply so far.
#[derive(Clone, Copy)]
pub struct Request {
    pub status: bool,
    pub filled: usize,
    pub reply: [u8; 64],
}

// What a microframe leaves: the request, whether it still runs, the line's flag, and whether bytes were dropped.
#[derive(Clone, Copy)]
pub struct Step {
    pub request: Request,
    pub running: bool,
    pub line: bool,
    pub dropped: bool,
}

pub fn posted() -> Request {
    Request {
        status: false,
        filled: 0,
        reply: [0u8; 64],
    }
}

// The data stage: input on endpoint 0, of which the reply keeps 64 bytes.
fn data(windows: &mut Windows<'_>, request: Request, flag: bool) -> Step
    ensures { SameWindows windows.old windows.new }
{
    let mut reply = request.reply;
    let at = request.filled.min(64);
    let filled = runs::run0_in(windows, &mut reply, at, 64, flag);
    let ran = filled.ran;
    let end = filled.at;
    Step {
        request: Request {
            status: ran.done || end == 64,
            filled: end,
            reply,
        },
        running: true,
        line: ran.line,
        dropped: ran.dropped != 0,
    }
}

// The status stage: output of nothing on endpoint 0, whose completion ends the request.
fn status(windows: &mut Windows<'_>, before: Step) -> Step {
    let ran = runs::run0_out(windows, b"", before.line);
    Step {
        running: !ran.done,
        line: ran.line,
        dropped: before.dropped || ran.dropped != 0,
        ..before
    }
}

// The request before its status stage: as it stands, or after a microframe's data stage.
fn staged(windows: &mut Windows<'_>, request: Request, flag: bool) -> Step
    ensures { SameWindows windows.old windows.new }
{
    if request.status {
        return Step {
            request,
            running: true,
            line: flag,
            dropped: false,
        };
    }
    data(windows, request, flag)
}

// A microframe of a request; the status stage may follow the data stage at once.
pub fn microframe(windows: &mut Windows<'_>, request: Request, flag: bool) -> Step {
    let on = frames::begin(windows, flag);
    let before = staged(windows, request, on);
    if before.request.status {
        return status(windows, before);
    }
    before
}
