// The chain of a microframe's steps over parts: each function makes one step, and stops or goes on.
#![tactic(auto)]

ghost use Rattle.std.specs.Prelude.{◌≡◌, ◌≤◌, length};
ghost use Rattle.bus.specs.Windows.{SameWindows};
ghost use Rattle.frames.specs.Areas.{arrays_of, lent_of, SameAreas};
ghost use Rattle.model.specs.Microframe as M;
ghost use Rattle.frames.specs.Promises as P;

mod areas;

pub use crate::areas::Areas;
use bus::Windows;
use record::{Phase, Settings, State};
use usbdev::USBCMD;

// Enumeration and streaming: nothing while the firmware does not run; else the start of the frame, control, and the streams.
#[tactic(auto, using(crate::proofs::Steps::paged_length))]
fn connected(
    s: State,
    c: Settings,
    windows: &mut Windows<'_>,
    areas: &mut Areas<'_>,
    time: u64,
    running: bool,
) -> State
    requires { P.Going s (length areas.old.sending.now) }
    ensures left { P.Goes (M.talks c time running) s (arrays_of areas.old) (lent_of windows.old areas.old) result (arrays_of areas.new) (lent_of windows.new areas.new) }
    ensures same { SameWindows windows.old windows.new }
    ensures areas { SameAreas areas.old areas.new }
{
    if !running {
        return s;
    }
    let started = phases::start_of_frame(s, windows.page);
    let next = control::control(
        started,
        c.device_stack,
        areas.setups,
        areas.device,
        windows,
        areas.reply,
        areas.config,
    );
    framing::streaming(
        next,
        c,
        areas.midi,
        areas.serial,
        windows,
        areas.receive,
        areas.cables,
        areas.received,
        areas.sending,
        time,
    )
}

// The step of the phase.
#[tactic(auto, using(crate::proofs::Steps::paged_length, crate::proofs::Steps::queued_length))]
fn by_phase(
    s: State,
    c: Settings,
    windows: &mut Windows<'_>,
    areas: &mut Areas<'_>,
    time: u64,
    running: bool,
) -> State
    requires { P.Going s (length areas.old.sending.now) }
    ensures left { P.Goes (M.by_phase c time running) s (arrays_of areas.old) (lent_of windows.old areas.old) result (arrays_of areas.new) (lent_of windows.new areas.new) }
    ensures same { SameWindows windows.old windows.new }
    ensures areas { SameAreas areas.old areas.new }
{
    match s.phase {
        Phase::Idle => phases::idle(s, windows.page),
        Phase::Vbus => phases::vbus(s, windows.page, running),
        Phase::Reset => phases::reset(s, windows.page, areas.setups),
        _ => connected(s, c, windows, areas, time, running),
    }
}

// One microframe of 125 microseconds at a time: nothing but MIDI's sleep while the host is gone or the bus suspended; else device left, and the phase.
#[tactic(auto, using(crate::proofs::Steps::paged_length))]
pub fn microframe(
    s: State,
    c: Settings,
    windows: &mut Windows<'_>,
    areas: &mut Areas<'_>,
    time: u64,
) -> State
    requires { P.Fit s (length areas.old.sending.now) × (c.spans ≤ 16) }
    ensures left { P.Frame time c s (arrays_of areas.old) (lent_of windows.old areas.old) result (arrays_of areas.new) (lent_of windows.new areas.new) }
    ensures same { SameWindows windows.old windows.new }
    ensures areas { SameAreas areas.old areas.new }
{
    let running = bits::any(bus::word_at(windows.registers(), USBCMD), 1);
    let gone = phases::any_span(&c.gone[..c.spans], time);
    let opened = framing::opened(s, c, windows.page, gone);
    if gone {
        return phases::asleep(opened);
    }
    let suspended = phases::in_span(c.suspend, time);
    let awake = phases::suspend_step(opened, windows.page, suspended);
    if suspended {
        return phases::asleep(awake);
    }
    let next = phases::left_step(awake, running, c.device_stack);
    by_phase(next, c, windows, areas, time, running)
}
