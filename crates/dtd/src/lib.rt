// Queue heads and transfer descriptors (dTDs): finding the next one, retiring it, and runs over an endpoint's list.
#![tactic(auto)]

ghost use Rattle.std.specs.Prelude.{◌≡◌, ℕ, ◌<◌, ◌≤◌, Bool, true, false, [], length, drop};
ghost use Rattle.bus.specs.Windows.{viewed, memory_of, SameWindows};
ghost use Rattle.bus.specs.Memory.{shown, peek32 as Memory·peek32};
ghost use Rattle.bus.specs.Sized.{is_power};
ghost use Rattle.bus.specs.Stores.{bus as Stores·bus, Does};
ghost use Rattle.bus.specs.Steps.{exec};
ghost use Rattle.usbdev.specs.Registers.{registers, done};
ghost use Rattle.dtd.specs.Dtd as D;
ghost use Rattle.dtd.specs.Promises as P;

mod side;

use crate::side::Counted;
pub use crate::side::{Moved, Side, Source};
use bus::{PAGE, SRAM, View, Windows, put_at, word_at};
use usbdev::{EPCOMPLETE, EPLISTADDR, EPSR, FRINDEX};

// An active descriptor: the queue head of its endpoint, the pointer that names it, its token, and the endpoint's bit of EPSR.
#[derive(Clone, Copy)]
pub struct Descriptor {
    pub queue_head: u32,
    pub pointer: u32,
    pub token: u32,
    pub bit: u32,
}

// What stands before a descriptor is moved: the endpoint is not primed, its list ends, or the next descriptor is active.
#[derive(Clone, Copy)]
pub enum Found {
    Unprimed,
    Ended,
    Active(Descriptor),
}

// The queue head of an endpoint's direction.
#[tactic(auto, unfolding(crate::specs::Dtd::queue_head))]
pub fn qh(page: &[u8; PAGE], ep: u32, dir_in: bool) -> u32
    requires { ep < 16 }
    ensures { result ≡ D.queue_head (D.endpoint ep dir_in) page.now }
{
    let list = bits::clear(word_at(page, EPLISTADDR), 0x7FF);
    if dir_in {
        return list + 64 * (2 * ep + 1);
    }
    list + 64 * (2 * ep)
}

// The pointer to the next descriptor that the controller would run; 1 where there is none.
#[tactic(auto, unfolding(crate::specs::Dtd::next_of, bus::specs::Memory::after))]
pub fn next_dtd(view: View<'_>, qh: u32) -> u32
    ensures { result ≡ D.next_of qh (viewed view.entry) }
{
    let next = view.peek32(qh.wrapping_add(8));
    if bits::any(next, 1) {
        let current = bits::clear(view.peek32(qh.wrapping_add(4)), 0x1F);
        if current == 0 {
            return 1;
        }
        return view.peek32(current);
    }
    next
}

// The token of the descriptor that the pointer n names.
#[tactic(auto, unfolding(bus::specs::Memory::after))]
pub fn token_of(view: View<'_>, n: u32) -> u32
    ensures { result ≡ D.token_of n (viewed view.entry) }
{
    view.peek32(bits::clear(n, 0x1F).wrapping_add(4))
}

// The endpoint's bit of EPSR and EPCOMPLETE.
pub fn bit_of(ep: u32, dir_in: bool) -> u32
    requires { ep < 16 }
    ensures { result ≡ D.bit_of (D.endpoint ep dir_in) }
{
    if dir_in { 1 << (16 + ep) } else { 1 << ep }
}

// What stands before a descriptor of the endpoint.
#[tactic(auto, unfolding(crate::specs::Dtd::found, crate::specs::Dtd::next_active, crate::specs::Dtd::primed))]
pub fn find(view: View<'_>, ep: u32, dir_in: bool) -> Found
    requires { ep < 16 }
    ensures { result ≡ D.found (D.endpoint ep dir_in) (viewed view.entry) }
{
    let page = view.page;
    let bit = bit_of(ep, dir_in);
    if bits::any(word_at(page, EPSR), bit) {
        let head = qh(page, ep, dir_in);
        let next = next_dtd(view, head);
        if bits::any(next, 1) {
            return Found::Ended;
        }
        let tok = token_of(view, next);
        if bits::any(tok, 0x80) {
            return Found::Active(Descriptor {
                queue_head: head,
                pointer: next,
                token: tok,
                bit,
            });
        }
        return Found::Ended;
    }
    Found::Unprimed
}

// Token, frame number and current pointer of a descriptor, of which `moved` bytes have moved; the bytes dropped.
#[tactic(auto, using(crate::proofs::Laws::dropped32_le, bus::proofs::Lengths::sized_of), unfolding(crate::specs::Dtd::closing, crate::specs::Dtd::framed, bus::specs::Steps::and_then, bus::specs::Stores::putting, bus::specs::Stores::store, bus::specs::Stores::dropped_by, bus::specs::Stores::dropped, bus::specs::Memory::after))]
fn close(windows: &mut Windows<'_>, descriptor: Descriptor, moved: u32) -> u32
    ensures left { ((l : Bool) → Does (D.closing descriptor.queue_head descriptor.pointer descriptor.token moved) (Stores·bus (memory_of windows.old) l) (Stores·bus (memory_of windows.new) l) result) × (result ≤ 12) }
    ensures same { SameWindows windows.old windows.new }
{
    let td = bits::clear(descriptor.pointer, 0x1F);
    let token = usbdev::token_after(descriptor.token, moved);
    let n0 = windows.poke32(td.wrapping_add(4), token);
    let second = windows.peek32(td.wrapping_add(12));
    let frame = word_at(windows.registers(), FRINDEX) / 8;
    let framed = bits::replace(second, 0x7FF, frame);
    let n1 = windows.poke32(td.wrapping_add(12), framed);
    let n2 = windows.poke32(descriptor.queue_head.wrapping_add(4), td);
    n0 + (n1 + n2)
}

// The completion bit, where the token asks for an interrupt.
#[tactic(auto, unfolding(crate::specs::Dtd::completing, usbdev::specs::Registers::store))]
fn complete(page: &mut [u8; PAGE], tok: u32, bit: u32)
    ensures { (l : Bool) → registers page.new l ≡ done (D.completing tok bit) (registers page.old l) }
{
    if bits::any(tok, 0x8000) {
        let old = word_at(&*page, EPCOMPLETE);
        put_at(page, EPCOMPLETE, bits::set(old, bit));
    }
}

// A retired descriptor: its next pointer, and the bytes dropped.
#[derive(Clone, Copy)]
pub struct Retired {
    pub next: u32,
    pub dropped: u32,
}

// Next pointer, token copy and completion bit of a descriptor.
#[tactic(auto, using(crate::proofs::Laws::dropped32_le, bus::proofs::Lengths::sized_of, crate::proofs::Laws::complete_steps), unfolding(crate::specs::Dtd::advancing, bus::specs::Steps::and_then, bus::specs::Stores::putting, bus::specs::Stores::store, bus::specs::Stores::dropped_by, bus::specs::Stores::dropped, bus::specs::Memory::after))]
fn advance(windows: &mut Windows<'_>, descriptor: Descriptor) -> Retired
    ensures left { P.Advances descriptor.queue_head descriptor.pointer descriptor.token descriptor.bit (memory_of windows.old) (memory_of windows.new) result }
    ensures same { SameWindows windows.old windows.new }
{
    let td = bits::clear(descriptor.pointer, 0x1F);
    let next = windows.peek32(td);
    let n0 = windows.poke32(descriptor.queue_head.wrapping_add(8), next);
    let copy = windows.peek32(td.wrapping_add(4));
    let n1 = windows.poke32(descriptor.queue_head.wrapping_add(12), copy);
    complete(windows.page, descriptor.token, descriptor.bit);
    Retired {
        next,
        dropped: n0 + n1,
    }
}

// Retires a descriptor, of which `moved` bytes have moved.
pub fn retire(windows: &mut Windows<'_>, descriptor: Descriptor, moved: u32) -> Retired
    ensures left { P.Retires descriptor.queue_head descriptor.pointer descriptor.token moved descriptor.bit (memory_of windows.old) (memory_of windows.new) result }
    ensures same { SameWindows windows.old windows.new }
{
    let n0 = close(windows, descriptor, moved);
    let advanced = advance(windows, descriptor);
    Retired {
        next: advanced.next,
        dropped: n0 + advanced.dropped,
    }
}

// Whether a list ends at the pointer n: it names no descriptor, or one that is not active.
#[tactic(auto, unfolding(crate::specs::Dtd::list_ends))]
fn list_ends(view: View<'_>, n: u32) -> bool
    ensures { result ≡ D.list_ends n (viewed view.entry) }
{
    if bits::any(n, 1) {
        return true;
    }
    !bits::any(token_of(view, n), 0x80)
}

// The endpoint's bit of EPSR goes where its list ends.
#[tactic(auto, unfolding(crate::specs::Dtd::unpriming, usbdev::specs::Registers::store))]
fn unprime(page: &mut [u8; PAGE], ends: bool, bit: u32)
    ensures { (l : Bool) → registers page.new l ≡ done (D.unpriming ends bit) (registers page.old l) }
{
    if ends {
        let old = word_at(&*page, EPSR);
        put_at(page, EPSR, bits::clear(old, bit));
    }
}

// A flagged completion raises UI.
#[tactic(auto, unfolding(crate::specs::Dtd::reporting))]
fn report(page: &mut [u8; PAGE], completed: bool, flag: bool) -> bool
    ensures { registers page.new result ≡ done (D.reporting completed) (registers page.old flag) }
{
    if completed {
        return usbdev::raise(page, 1, flag);
    }
    flag
}

// What follows the last descriptor of a run that ended at the pointer n; the line's flag goes in and comes out.
pub fn settle(
    dynamic: &[u8],
    sram: &[u8; SRAM],
    page: &mut [u8; PAGE],
    bit: u32,
    n: u32,
    completed: bool,
    flag: bool,
) -> bool
    requires { is_power (length dynamic.now) ≡ true }
    ensures { Does (D.settling bit n completed) (Stores·bus (shown dynamic.now sram.now page.old) flag) (Stores·bus (shown dynamic.now sram.now page.new) result) 0 }
{
    let view = View {
        dynamic,
        sram,
        page: &*page,
    };
    let ends = list_ends(view, n);
    unprime(page, ends, bit);
    report(page, completed, flag)
}

// A run of one descriptor after its bytes have moved: whether a completion was flagged, the bytes dropped, and the line's flag.
#[derive(Clone, Copy)]
pub struct Finished {
    pub done: bool,
    pub dropped: u32,
    pub line: bool,
}

// Retires the one descriptor of a run, of which `moved` bytes have moved, and settles the endpoint.
pub fn finish(windows: &mut Windows<'_>, descriptor: Descriptor, moved: u32, flag: bool) -> Finished
    ensures left { P.Finishes descriptor.queue_head descriptor.pointer descriptor.token moved descriptor.bit (Stores·bus (memory_of windows.old) flag) (Stores·bus (memory_of windows.new) result.line) result }
    ensures same { SameWindows windows.old windows.new }
{
    let retired = retire(windows, descriptor, moved);
    let completed = bits::any(descriptor.token, 0x8000);
    let dynamic = &mut *windows.dynamic;
    let line = settle(
        dynamic,
        windows.sram,
        windows.page,
        descriptor.bit,
        retired.next,
        completed,
        flag,
    );
    Finished {
        done: completed,
        dropped: retired.dropped,
        line,
    }
}

// A run's answer: whether a completion was flagged, bytes moved, descriptors retired, bytes dropped, and the line's flag.
#[derive(Clone, Copy)]
pub struct Ran {
    pub done: bool,
    pub moved: u32,
    pub retired: u32,
    pub dropped: u32,
    pub line: bool,
}

// The answer of a run that retires nothing.
pub fn none_ran(line: bool) -> Ran
    ensures { result ≡ P.none_ran line }
{
    Ran {
        done: false,
        moved: 0,
        retired: 0,
        dropped: 0,
        line,
    }
}

impl Finished {
    // The answer of the run, of which `moved` bytes have moved, and `lost` more were dropped on the way.
    fn ran(self, moved: u32, lost: u32) -> Ran
        requires { (self.dropped ≤ 20) × (lost ≤ 32767) }
        ensures { result ≡ P.ran_of self moved lost }
    {
        Ran {
            done: self.done,
            moved,
            retired: 1,
            dropped: lost + self.dropped,
            line: self.line,
        }
    }
}

// An active descriptor: its bytes are moved, it is retired, and its endpoint settled.
pub fn serve_one<S: Side>(
    windows: &mut Windows<'_>,
    side: &mut S,
    descriptor: Descriptor,
    flag: bool,
) -> Ran
    ensures left { P.Serves S.input descriptor (S.to_send side.old) (S.holds side.old) (S.holds side.new) (memory_of windows.old) (Stores·bus (memory_of windows.old) flag) (Stores·bus (memory_of windows.new) result.line) result }
    ensures same { SameWindows windows.old windows.new }
    ensures held { S.Same side.old side.new }
    ensures unsent { S.to_send side.new ≡ drop result.moved (S.to_send side.old) }
{
    let moved = side.move_bytes(windows, descriptor);
    finish(windows, descriptor, moved.bytes, flag).ran(moved.bytes, moved.lost)
}

// An active output descriptor takes what it can of `bytes`, and is retired.
pub fn send_one(windows: &mut Windows<'_>, descriptor: Descriptor, bytes: &[u8], flag: bool) -> Ran
    ensures left { P.SendsOne descriptor.queue_head descriptor.pointer descriptor.token descriptor.bit bytes.now (Stores·bus (memory_of windows.old) flag) (Stores·bus (memory_of windows.new) result.line) result }
    ensures same { SameWindows windows.old windows.new }
{
    serve_one(windows, &mut Source { bytes }, descriptor, flag)
}

// An active input descriptor, whose bytes the caller has read or need not read, is retired.
pub fn take_one(windows: &mut Windows<'_>, descriptor: Descriptor, flag: bool) -> Ran
    ensures left { P.TakesOne descriptor.queue_head descriptor.pointer descriptor.token descriptor.bit (Stores·bus (memory_of windows.old) flag) (Stores·bus (memory_of windows.new) result.line) result }
    ensures same { SameWindows windows.old windows.new }
{
    serve_one(windows, &mut Counted, descriptor, flag)
}

// How a run on an endpoint other than 0 begins: its next descriptor is active, or it is over.
pub fn begin(
    windows: &mut Windows<'_>,
    ep: u32,
    dir_in: bool,
    flag: bool,
) -> Result<Descriptor, Ran>
    requires { (0 < ep) × (ep < 16) }
    ensures left { P.Begins (D.endpoint ep dir_in) flag (memory_of windows.old) (memory_of windows.new) result }
    ensures same { SameWindows windows.old windows.new }
{
    match find(windows.view(), ep, dir_in) {
        Found::Unprimed => Err(none_ran(flag)),
        Found::Ended => {
            let bit = bit_of(ep, dir_in);
            let dynamic = &mut *windows.dynamic;
            let line = settle(dynamic, windows.sram, windows.page, bit, 1, false, flag);
            Err(none_ran(line))
        }
        Found::Active(descriptor) => Ok(descriptor),
    }
}

// A run on an endpoint other than 0, towards the device or from it.
pub fn run<S: Side>(windows: &mut Windows<'_>, side: &mut S, ep: u32, flag: bool) -> Ran
    requires { (0 < ep) × (ep < 16) }
    ensures left { P.RunsOver (D.endpoint ep S.input) (S.to_send side.old) (S.holds side.old) (S.holds side.new) (Stores·bus (memory_of windows.old) flag) (Stores·bus (memory_of windows.new) result.line) result }
    ensures same { SameWindows windows.old windows.new }
    ensures held { S.Same side.old side.new }
    ensures unsent { S.to_send side.new ≡ drop result.moved (S.to_send side.old) }
{
    match begin(windows, ep, side.is_input(), flag) {
        Ok(descriptor) => serve_one(windows, side, descriptor, flag),
        Err(ran) => ran,
    }
}

// A run on an endpoint other than 0, towards the device.
pub fn run_out(windows: &mut Windows<'_>, ep: u32, bytes: &[u8], flag: bool) -> Ran
    requires { (0 < ep) × (ep < 16) }
    ensures left { P.Runs (D.endpoint ep false) bytes.now (Stores·bus (memory_of windows.old) flag) (Stores·bus (memory_of windows.new) result.line) result }
    ensures same { SameWindows windows.old windows.new }
{
    run(windows, &mut Source { bytes }, ep, flag)
}

// A run on an endpoint other than 0, from the device, whose bytes are only counted.
pub fn run_count(windows: &mut Windows<'_>, ep: u32, flag: bool) -> Ran
    requires { (0 < ep) × (ep < 16) }
    ensures left { P.Runs (D.endpoint ep true) [] (Stores·bus (memory_of windows.old) flag) (Stores·bus (memory_of windows.new) result.line) result }
    ensures same { SameWindows windows.old windows.new }
{
    run(windows, &mut Counted, ep, flag)
}
