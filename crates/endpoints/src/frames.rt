// Single runs on endpoint 2, as a microframe of a serial host does them.
ghost use Rattle.std.specs.Prelude.{◌≡◌, ◌≤◌, length, IfSome};
ghost use Rattle.bus.specs.Windows.{SameWindows};

use bus::{View, Windows, put_at, word_at};
use dtd::Found;
use usbdev::FRINDEX;

// What a microframe leaves: the line's flag, how many bytes came in and went out, and how many were dropped.
#[derive(Clone, Copy)]
pub struct Served {
    pub line: bool,
    pub received: usize,
    pub sent: usize,
    pub dropped: bool,
}

// A microframe's start: FRINDEX counts, and SRI is raised.
pub fn begin(windows: &mut Windows<'_>, flag: bool) -> bool {
    let frame = usbdev::next_frindex(word_at(windows.registers(), FRINDEX), 1);
    let page = &mut *windows.page;
    put_at(page, FRINDEX, frame);
    usbdev::raise(windows.page, 0x80, flag)
}

// The bytes of endpoint 2's next input descriptor, and how many there are; a total has 15 bits.
fn take_in(view: View<'_>, input: &mut [u8; 32768]) -> usize
    ensures { result ≤ 32767 }
{
    let Found::Active(descriptor) = dtd::find(view, 2, true) else {
        return 0;
    };
    let count = (usbdev::total(descriptor.token) as usize).min(32767);
    let ps = transfer::pointers_for(view, bits::clear(descriptor.pointer, 0x1F), count);
    transfer::copy_in(view, &ps, count, input, 0);
    count
}

// How many of the queued bytes go to endpoint 2's next output descriptor, where there is one.
fn wanted(view: View<'_>, queued: usize) -> Option<usize>
    ensures { IfSome result (λ count. count ≤ queued) }
{
    let Found::Active(descriptor) = dtd::find(view, 2, false) else {
        return None;
    };
    Some(
        (usbdev::total(descriptor.token) as usize)
            .min(512)
            .min(queued),
    )
}

// Input on endpoint 2.
fn receive(windows: &mut Windows<'_>, input: &mut [u8; 32768], flag: bool) -> Served
    ensures counts { (result.received ≤ 32767) × (result.sent ≡ 0) }
    ensures same { SameWindows windows.old windows.new }
{
    let received = take_in(windows.view(), input);
    let ran = dtd::run_count(windows, 2, flag);
    Served {
        line: ran.line,
        received,
        sent: 0,
        dropped: ran.dropped != 0,
    }
}

// A microframe of a serial host that streams: input, then output where bytes are queued and a descriptor is active.
pub fn serial(
    windows: &mut Windows<'_>,
    queue: &[u8],
    input: &mut [u8; 32768],
    flag: bool,
) -> Served
    ensures { (result.received ≤ 32767) × (result.sent ≤ length queue.now) }
{
    let on = begin(windows, flag);
    let before = receive(windows, input, on);
    if queue.is_empty() {
        return before;
    }
    let Some(count) = wanted(windows.view(), queue.len()) else {
        return before;
    };
    let ran = dtd::run_out(windows, 2, &queue[..count], before.line);
    Served {
        line: ran.line,
        sent: count,
        dropped: before.dropped || ran.dropped != 0,
        ..before
    }
}
