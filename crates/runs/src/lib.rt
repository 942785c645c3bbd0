// Runs over whole lists of descriptors: endpoint 0 both ways, and input into a lent area.
#![tactic(auto)]

ghost use Rattle.std.specs.Prelude.{◌≡◌, ℕ, ◌+◌, ◌<◌, ◌≤◌, Bool, true, false, List, [], length, drop, refl};
ghost use Rattle.bus.specs.Windows.{memory_of, SameWindows};
ghost use Rattle.bus.specs.Stores.{bus as Stores·bus};
ghost use Rattle.dtd.specs.Dtd as D;
ghost use Rattle.dtd.specs.Promises as P;
ghost use Rattle.runs.specs.Turns as T;

mod sink;

use crate::sink::Sink;
use bus::{Windows, word_at};
use dtd::{Descriptor, Ran, Side, Source};
use usbdev::EPSR;

// Where a loop over descriptors stands: the next pointer, what was counted, and whether the list ended.
#[derive(Clone, Copy)]
pub struct Turn {
    pub next: u32,
    pub done: bool,
    pub moved: u32,
    pub retired: u32,
    pub dropped: u32,
    pub stop: bool,
}

// A run into an area: its answer, and the index behind the last byte kept.
#[derive(Clone, Copy)]
pub struct Filled {
    pub ran: Ran,
    pub at: usize,
}

fn first_turn(next: u32) -> Turn
    ensures { result ≡ T.first_turn next }
{
    Turn {
        next,
        done: false,
        moved: 0,
        retired: 0,
        dropped: 0,
        stop: false,
    }
}

fn stopped(t: Turn, next: u32) -> Turn
    ensures { result ≡ T.stopped_at t next }
{
    Turn {
        next,
        stop: true,
        ..t
    }
}

// One turn of a run on endpoint 0: the bytes of the next descriptor are moved and it is retired, or the list ends.
fn next_turn<S: Side>(windows: &mut Windows<'_>, side: &mut S, qh: u32, t: Turn) -> Turn
    requires { T.Small t }
    ensures left { T.Turned (D.endpoint 0 S.input) qh (S.to_send side.old) (S.to_send side.new) (S.holds side.old) (S.holds side.new) (memory_of windows.old) (memory_of windows.new) t result }
    ensures same { SameWindows windows.old windows.new }
    ensures held { S.Same side.old side.new }
    ensures unsent { (bs : List ℕ) → S.to_send side.old ≡ drop t.moved bs → S.to_send side.new ≡ drop result.moved bs }
{
    let next = t.next;
    if bits::any(next, 1) {
        return stopped(t, next);
    }
    let token = dtd::token_of(windows.view(), next);
    if !bits::any(token, 0x80) {
        return stopped(t, 1);
    }
    let descriptor = Descriptor {
        queue_head: qh,
        pointer: next,
        token,
        bit: dtd::bit_of(0, side.is_input()),
    };
    let moved = side.move_bytes(windows, descriptor);
    let retired = dtd::retire(windows, descriptor, moved.bytes);
    Turn {
        next: retired.next,
        done: t.done | bits::any(token, 0x8000),
        moved: t.moved + moved.bytes,
        retired: t.retired + 1,
        dropped: t.dropped + (moved.lost + retired.dropped),
        stop: false,
    }
}

// At most 64 descriptors of endpoint 0's list, from the pointer `first` on.
fn run_list<S: Side>(windows: &mut Windows<'_>, side: &mut S, qh: u32, first: u32) -> Turn
    ensures left { T.Looped (D.endpoint 0 S.input) qh first (S.to_send side.old) (S.holds side.old) (S.holds side.new) (memory_of windows.old) (memory_of windows.new) result }
    ensures same { SameWindows windows.old windows.new }
    ensures held { S.Same side.old side.new }
    ensures unsent { S.to_send side.new ≡ drop result.moved (S.to_send side.old) }
{
    let mut t = first_turn(first);
    for i in 0..64u32 {
        t = next_turn(windows, side, qh, t);
        if t.stop {
            return t;
        }
    }
    t
}

// The answer of a loop that ended.
fn answer(t: Turn, line: bool) -> Ran
    ensures { result ≡ T.answer_of t line }
{
    Ran {
        done: t.done,
        moved: t.moved,
        retired: t.retired,
        dropped: t.dropped,
        line,
    }
}

// A run on endpoint 0, towards the device or from it.
fn run0<S: Side>(windows: &mut Windows<'_>, side: &mut S, flag: bool) -> Ran
    ensures left { P.RunsOver (D.endpoint 0 S.input) (S.to_send side.old) (S.holds side.old) (S.holds side.new) (Stores·bus (memory_of windows.old) flag) (Stores·bus (memory_of windows.new) result.line) result }
    ensures same { SameWindows windows.old windows.new }
    ensures held { S.Same side.old side.new }
    ensures unsent { S.to_send side.new ≡ drop result.moved (S.to_send side.old) }
{
    let dir_in = side.is_input();
    let bit = dtd::bit_of(0, dir_in);
    if bits::any(word_at(windows.registers(), EPSR), bit) {
        let qh = dtd::qh(windows.registers(), 0, dir_in);
        let first = dtd::next_dtd(windows.view(), qh);
        let t = run_list(windows, side, qh, first);
        let dynamic = &mut *windows.dynamic;
        let line = dtd::settle(
            dynamic,
            windows.sram,
            windows.page,
            bit,
            t.next,
            t.done,
            flag,
        );
        return answer(t, line);
    }
    dtd::none_ran(flag)
}

// A run on endpoint 0 from the device: its bytes go into `out` from `at` on, and what lies past the limit is discarded.
pub fn run0_in(
    windows: &mut Windows<'_>,
    out: &mut [u8],
    at: usize,
    limit: usize,
    flag: bool,
) -> Filled
    requires { (limit ≤ length out.old) × (at ≤ limit) }
    ensures left { T.RunsIn (D.endpoint 0 true) limit (Stores·bus (memory_of windows.old) flag) (Stores·bus (memory_of windows.new) result.ran.line) out.old out.new at result }
    ensures same { SameWindows windows.old windows.new }
{
    let mut area = Sink { out, at, limit };
    let ran = run0(windows, &mut area, flag);
    Filled { ran, at: area.at }
}

// A run on endpoint 0 towards the device; a status stage has no bytes.
pub fn run0_out(windows: &mut Windows<'_>, bytes: &[u8], flag: bool) -> Ran
    ensures left { P.Runs (D.endpoint 0 false) bytes.now (Stores·bus (memory_of windows.old) flag) (Stores·bus (memory_of windows.new) result.line) result }
    ensures same { SameWindows windows.old windows.new }
{
    run0(windows, &mut Source { bytes }, flag)
}

// A run on an endpoint other than 0 from the device: its bytes go into `out` from `at` on, and what lies past the limit is discarded.
pub fn run_in(
    windows: &mut Windows<'_>,
    out: &mut [u8],
    ep: u32,
    at: usize,
    limit: usize,
    flag: bool,
) -> Filled
    requires limit_in_bounds { (limit ≤ length out.old) × (at ≤ limit) }
    requires ep_nonzero { (0 < ep) × (ep < 16) }
    ensures left { T.RunsIn (D.endpoint ep true) limit (Stores·bus (memory_of windows.old) flag) (Stores·bus (memory_of windows.new) result.ran.line) out.old out.new at result }
    ensures same { SameWindows windows.old windows.new }
{
    let mut area = Sink { out, at, limit };
    let ran = dtd::run(windows, &mut area, ep, flag);
    Filled { ran, at: area.at }
}
