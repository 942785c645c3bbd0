// Streams of bytes of a configured host: serial, MIDI to the device, and the vendor interface's.
#![tactic(auto)]

ghost use Rattle.std.specs.Prelude.{◌≡◌, false, ◌+◌, ◌<◌, ◌≤◌, length};
ghost use Rattle.bus.specs.Windows.{memory_of, SameWindows};
ghost use Rattle.dtd.specs.Dtd as D;
ghost use Rattle.record.specs.World.{with_serial_queue, with_midi_queue};
ghost use Rattle.record.specs.Did as R;
ghost use Rattle.model.specs.Streams as M;
ghost use Rattle.streams.specs.Promises as P;

use bus::Windows;
use dtd::{Found, Ran};
use record::{Counter, State};

// The bytes of one bulk packet at high speed.
const PACKET: usize = 512;

// What an output endpoint took of a queue: so many bytes, by a run.
#[derive(Clone, Copy)]
struct Taken {
    ran: Ran,
    bytes: usize,
}

// How many of the queued bytes one packet carries to a descriptor with this token.
fn packet_of(tok: u32, queued: usize) -> usize
    ensures { result ≡ P.packet_of tok queued }
{
    (usbdev::total(tok) as usize).min(PACKET).min(queued)
}

// Serial input: its bytes go into the receive area.
fn serial_in(s: State, windows: &mut Windows<'_>, receive: &mut [u8]) -> State
    requires { s.answer.received + 32767 ≤ length receive.old }
    ensures left { P.Receives M.takes_serial s (memory_of windows.old) receive.old result (memory_of windows.new) receive.new }
    ensures same { SameWindows windows.old windows.new }
{
    let at = s.answer.received;
    let limit = receive.len();
    let line = s.port.line;
    let filled = runs::run_in(windows, receive, 2, at, limit, line);
    let mut next = s.after_run(filled.ran);
    next.answer.received = filled.at;
    next
}

// Bytes that wait go to an output endpoint whose next descriptor is active: whole units, as many as fit.
#[tactic(auto, using(crate::proofs::Laws::served_none, crate::proofs::Laws::served_not, crate::proofs::Found::found_idle, bus::proofs::Lengths::sized_of), unfolding(crate::specs::Promises::Gives))]
fn give(
    windows: &mut Windows<'_>,
    queue: &mut [u8],
    held: usize,
    unit: usize,
    ep: u32,
    line: bool,
) -> Option<Taken>
    requires held_in_bounds { (held ≤ length queue.old) × (1 ≤ unit) }
    requires le_ep { (1 ≤ ep) × (ep < 16) }
    ensures left { P.Gives (D.endpoint ep false) unit line (memory_of windows.old) queue.old held result (memory_of windows.new) queue.new }
    ensures same { SameWindows windows.old windows.new }
{
    if held == 0 {
        return None;
    }
    match dtd::find(windows.view(), ep, false) {
        Found::Unprimed | Found::Ended => None,
        Found::Active(descriptor) => {
            let bytes = packet_of(descriptor.token, held) / unit * unit;
            let ran = dtd::send_one(windows, descriptor, &queue[..bytes], line);
            record::drain(queue, held, bytes);
            Some(Taken { ran, bytes })
        }
    }
}

// Serial output, where bytes wait and a descriptor is active.
fn serial_out(s: State, windows: &mut Windows<'_>, serial: &mut [u8]) -> State
    requires { s.lengths.serial ≤ length serial.old }
    ensures left { P.Serves with_serial_queue M.gives_serial s (memory_of windows.old) serial.old result (memory_of windows.new) serial.new }
    ensures same { SameWindows windows.old windows.new }
{
    let held = s.lengths.serial;
    let line = s.port.line;
    let Some(taken) = give(windows, serial, held, 1, 2, line) else {
        return s;
    };
    let mut next = s.after_run(taken.ran);
    next.lengths.serial = held - taken.bytes;
    next
}

// The serial device's two endpoints.
pub fn serial_step(
    s: State,
    windows: &mut Windows<'_>,
    serial: &mut [u8],
    receive: &mut [u8],
) -> State
    requires { (s.lengths.serial ≤ length serial.old) × (s.answer.received + 32767 ≤ length receive.old) }
    ensures left { P.ServesBoth M.serial_step s (memory_of windows.old) serial.old receive.old result (memory_of windows.new) serial.new receive.new }
    ensures same { SameWindows windows.old windows.new }
{
    let next = serial_in(s, windows, receive);
    serial_out(next, windows, serial)
}

// MIDI output, where packets wait and a descriptor is active: whole packets of four bytes, which are counted.
pub fn midi_out(s: State, windows: &mut Windows<'_>, midi: &mut [u8]) -> State
    requires { s.lengths.midi ≤ length midi.old }
    ensures left { P.Serves with_midi_queue M.midi_out s (memory_of windows.old) midi.old result (memory_of windows.new) midi.new }
    ensures same { SameWindows windows.old windows.new }
{
    let held = s.lengths.midi;
    let line = s.port.line;
    let Some(taken) = give(windows, midi, held, 4, 1, line) else {
        return s;
    };
    let packets = (taken.bytes / 4) as u64;
    let mut next = s
        .after_run(taken.ran)
        .count(Counter::MidiPacketsOut, packets);
    next.lengths.midi = held - taken.bytes;
    next
}

// The vendor interface's input, whose bytes are only counted.
pub fn vendor(s: State, windows: &mut Windows<'_>) -> State
    ensures did { R.Did M.reads_vendor s (memory_of windows.old) result (memory_of windows.new) }
    ensures fewer { P.Fewer s.lengths result.lengths }
    ensures same { SameWindows windows.old windows.new }
{
    let ran = dtd::run_count(windows, 2, s.port.line);
    s.after_run(ran)
        .count(Counter::VendorInBytes, u64::from(ran.moved))
}
