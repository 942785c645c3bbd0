// The streams of a microframe over parts, and what it begins with: each function makes one step, and stops or goes on.
#![tactic(auto)]

ghost use Rattle.std.specs.Prelude.{true, ◌≡◌, ◌≤◌, length};
ghost use Rattle.bus.specs.Windows.{memory_of, SameWindows};
ghost use Rattle.gptimers.specs.Timer.{in_range};
ghost use Rattle.record.specs.Change.{when};
ghost use Rattle.record.specs.Did.{Paged};
ghost use Rattle.model.specs.Phases.{ticks};
ghost use Rattle.model.specs.Microframe as M;
ghost use Rattle.midiin.specs.Promises.{Room, Hears};
ghost use Rattle.framing.specs.Promises as P;
ghost use Rattle.record.specs.Sizes as Sizes;

use bus::{PAGE, Windows};
use record::{Counter, Phase, QUEUE, RING, Settings, State};

// MIDI input, where it is read and the host is awake.
fn midi_in(
    s: State,
    c: Settings,
    windows: &mut Windows<'_>,
    receive: &mut [u8],
    cables: &mut [u8],
    time: u64,
) -> State
    requires { Room s.answer.received 196584 receive.old cables.old }
    ensures left { Hears (M.midi_steps c time) s (memory_of windows.old) receive.old cables.old result (memory_of windows.new) receive.new cables.new }
    ensures same { SameWindows windows.old windows.new }
{
    if !c.midi_in {
        return s;
    }
    if phases::in_span(c.sleep, time) {
        return s.count(Counter::MidiAsleep, 1);
    }
    midiin::midi_step(s, c.midi_every, windows, receive, cables)
}

// What the device stack adds: MIDI output and vendor bytes.
fn stack_step(
    s: State,
    device_stack: bool,
    midi: &mut [u8; QUEUE],
    windows: &mut Windows<'_>,
) -> State
    requires { s.lengths.midi ≤ Sizes.QUEUE }
    ensures left { P.Stacks (M.stack_steps device_stack) s (memory_of windows.old) midi.old result (memory_of windows.new) midi.new }
    ensures same { SameWindows windows.old windows.new }
{
    if !device_stack {
        return s;
    }
    let next = streams::midi_out(s, windows, midi);
    streams::vendor(next, windows)
}

// The streams of an Overbridge device: audio, MIDI input, and what the device stack adds.
fn overbridge(
    s: State,
    c: Settings,
    midi: &mut [u8; QUEUE],
    windows: &mut Windows<'_>,
    receive: &mut [u8],
    cables: &mut [u8],
    received: &mut [u32; RING],
    sending: &[u32],
    time: u64,
) -> State
    requires { ((Sizes.RECEIVE ≤ length receive.old) × (Sizes.RECEIVE ≤ length cables.old)) × P.Flows s (length sending.now) }
    ensures left { P.Bridges (M.bridge_steps c time) s (memory_of windows.old) midi.old receive.old cables.old received.old sending.now result (memory_of windows.new) midi.new receive.new cables.new received.new }
    ensures same { SameWindows windows.old windows.new }
{
    let streamed = audio::stream(s, windows, received, sending);
    let heard = midi_in(streamed, c, windows, receive, cables, time);
    stack_step(heard, c.device_stack, midi, windows)
}

// The streams, of a serial or an Overbridge device, once the host streams.
pub fn streaming(
    s: State,
    c: Settings,
    midi: &mut [u8; QUEUE],
    serial: &mut [u8; QUEUE],
    windows: &mut Windows<'_>,
    receive: &mut [u8],
    cables: &mut [u8],
    received: &mut [u32; RING],
    sending: &[u32],
    time: u64,
) -> State
    requires { ((Sizes.RECEIVE ≤ length receive.old) × (Sizes.RECEIVE ≤ length cables.old)) × P.Flows s (length sending.now) }
    ensures left { P.Transfers (M.transfers c time) s (memory_of windows.old) midi.old serial.old receive.old cables.old received.old sending.now result (memory_of windows.new) midi.new serial.new receive.new cables.new received.new }
    ensures same { SameWindows windows.old windows.new }
{
    let Phase::Stream = s.phase else {
        return s;
    };
    if c.cdc {
        return streams::serial_step(s, windows, serial, receive);
    }
    overbridge(
        s, c, midi, windows, receive, cables, received, sending, time,
    )
}

// The timers run where MIDI input is set.
fn ticked(s: State, midi_in: bool, page: &mut [u8; PAGE]) -> State
    requires { (in_range s.timers.zero ≡ true) × (in_range s.timers.one ≡ true) }
    ensures { Paged (when (λ w. midi_in) ticks) s page.old result page.new }
{
    if midi_in {
        return phases::timers(s, page);
    }
    s
}

// What a microframe begins with: counts, timers, and the host gone or back.
pub fn opened(s: State, c: Settings, page: &mut [u8; PAGE], gone: bool) -> State
    requires { (in_range s.timers.zero ≡ true) × (in_range s.timers.one ≡ true) }
    ensures { Paged (M.opens c gone) s page.old result page.new }
{
    let counted = phases::counts(s);
    let timed = ticked(counted, c.midi_in, page);
    phases::gone_step(timed, page, gone)
}
