// Control requests on endpoint 0: the setup queue, posting, the data and the status stage.
#![tactic(auto)]

ghost use Rattle.std.specs.Prelude.{◌≡◌, ℕ, ◌+◌, ◌*◌, ◌<◌, ◌≤◌, Bool, false, List, length};
ghost use Rattle.bus.specs.Windows.{memory_of, SameWindows};
ghost use Rattle.bits.specs.Word as W;
ghost use Rattle.bus.specs.Stores.{bus as Stores·bus, Does};
ghost use Rattle.usbdev.specs.Registers.{registers, done as Registers·done, raising, ◌then◌};
ghost use Rattle.dtd.specs.Dtd as D;
ghost use Rattle.record.specs.declared.Stage.TheVariants.{Status};
ghost use Rattle.record.specs.Record.{with_stage, with_control};
ghost use Rattle.record.specs.Change.{when};
ghost use Rattle.record.specs.Did.{Alone};
ghost use Rattle.model.specs.Phases.{changing, drops_request};
ghost use Rattle.model.specs.Control as C;
ghost use Rattle.finished.specs.Promises.{Ready};
ghost use Rattle.record.specs.Sizes as Sizes;
ghost use Rattle.control.specs.Promises as P;

use bus::{PAGE, Windows, put_at, word_at};
use dtd::Ran;
use finished::ended;
use record::{Control, Counter, DEVICE, Phase, SETUP_BYTES, Stage, State, word_from};
use usbdev::{EPCR0, EPSETUPSR};

// The stall bits of endpoint 0, both ways.
const STALLED: u32 = 0x1_0001;

// Microframes after which a request that is not answered is dropped.
const DROP_AFTER: u64 = 16000;

// A setup, as its two little-endian words.
#[derive(Clone, Copy, Debug, PartialEq, Eq)]
pub struct Setup {
    pub first: u32,
    pub second: u32,
}

// The setup queue's answer: the first of `count` setups that wait.
fn next_setup(setups: &[u8; SETUP_BYTES], count: usize) -> Option<Setup>
    ensures { result ≡ P.next_of setups.now count }
{
    if count == 0 {
        return None;
    }
    let first = word_from(setups, 0);
    let second = word_from(setups, 4);
    Some(Setup { first, second })
}

// Enumeration ends where no setup waits: streaming starts in this microframe.
#[tactic(auto, unfolding(bus::specs::Steps::choose, record::specs::Change::nothing, record::specs::Change::one, record::specs::Change::apply, bus::specs::Steps::and_then, model::specs::Control::configured))]
fn configured(s: State) -> State
    ensures { Alone C.configured s result }
{
    match s.phase {
        Phase::Enumerate => s.with_phase(Phase::Stream).count(Counter::Enumerations, 1),
        _ => s,
    }
}

// The setup packet goes to the queue head as its two words; the bytes dropped.
#[tactic(auto, using(dtd::proofs::Laws::dropped32_le, bus::proofs::Lengths::sized_of), unfolding(bus::specs::Steps::and_then, bus::specs::Stores::putting, bus::specs::Stores::store, bus::specs::Stores::dropped_by, bus::specs::Stores::dropped, bus::specs::Memory::after))]
fn put_words(windows: &mut Windows<'_>, setup: Setup) -> u32
    ensures left { ((l : Bool) → Does (P.puts_setup (D.queue_head (D.endpoint 0 false) windows.old.page.now) setup.first setup.second) (Stores·bus (memory_of windows.old) l) (Stores·bus (memory_of windows.new) l) result) × (result ≤ 8) }
    ensures same { SameWindows windows.old windows.new }
{
    let qh = dtd::qh(windows.registers(), 0, false);
    let n0 = windows.poke32(qh.wrapping_add(0x28), setup.first);
    let n1 = windows.poke32(qh.wrapping_add(0x2C), setup.second);
    n0 + n1
}

// The firmware is told that a setup packet stands.
#[tactic(auto, using(usbdev::proofs::Laws::done_then), unfolding(model::specs::Phases::changing, usbdev::specs::Registers::store))]
fn flag_setup(page: &mut [u8; PAGE], flag: bool) -> bool
    ensures { registers page.new result ≡ Registers·done (changing 0x1AC (λ v. W.set v 1) then raising 1) (registers page.old flag) }
{
    let waiting = word_at(&*page, EPSETUPSR);
    put_at(page, EPSETUPSR, bits::set(waiting, 1));
    usbdev::raise(page, 1, flag)
}

// The request that runs from this microframe on.
fn begun(s: State, setup: Setup) -> State
    ensures { result ≡ with_control s (C.begun setup.first setup.second s.port.uf) }
{
    let control = Control {
        on: true,
        stage: Stage::Data,
        first: setup.first,
        second: setup.second,
        got: 0,
        t0: s.port.uf,
    };
    State { control, ..s }
}

// The first setup leaves the queue and is posted.
fn post(
    mut s: State,
    setups: &mut [u8; SETUP_BYTES],
    windows: &mut Windows<'_>,
    setup: Setup,
) -> State
    requires { (1 ≤ s.lengths.setups) × (s.lengths.setups ≤ Sizes.SETUPS) }
    ensures left { P.Posts (C.posted (D.queue_head (D.endpoint 0 false) windows.old.page.now) setup.first setup.second) s (memory_of windows.old) setups.old result (memory_of windows.new) setups.new }
    ensures same { SameWindows windows.old windows.new }
{
    let count = s.lengths.setups;
    record::drain(setups, 8 * count, 8);
    let lost = put_words(windows, setup);
    s.lengths.setups = count - 1;
    s.port.line = flag_setup(windows.page, s.port.line);
    s.answer.dropped = s.answer.dropped.wrapping_add(u64::from(lost));
    begun(s, setup)
}

// The state whose request waits for its status stage.
fn at_status(s: State) -> State
    ensures { result ≡ with_control s (with_stage s.control Status) }
{
    let control = s.control.with_stage(Stage::Status);
    State { control, ..s }
}

// A request that is still not answered is dropped once it has run too long.
#[tactic(auto, unfolding(bus::specs::Steps::choose, record::specs::Change::nothing, record::specs::Change::one, record::specs::Change::apply, model::specs::Phases::drops_request))]
fn unless_late(s: State) -> State
    ensures { Alone (when C.timed_out drops_request) s result }
{
    if s.control.t0.wrapping_add(DROP_AFTER) < s.port.uf {
        return ended(s);
    }
    s
}

// The length that the request asks for (`w_length`).
fn asked(s: State) -> usize
    ensures { (result ≡ C.w_length s.control) × (result ≤ Sizes.REPLY) }
{
    (s.control.second / 0x1_0000) as usize
}

// Whether the request's data goes to the host.
fn to_host(s: State) -> bool
    ensures { result ≡ C.to_host s.control }
{
    bits::any(s.control.first, 0x80)
}

// The data stage from the device: its bytes go behind the reply, up to the asked length.
fn data_in(s: State, windows: &mut Windows<'_>, reply: &mut [u8]) -> State
    requires { Ready s × (Sizes.REPLY ≤ length reply.old) }
    ensures left { P.Stages C.data_in s (memory_of windows.old) reply.old result (memory_of windows.new) reply.new }
    ensures same { SameWindows windows.old windows.new }
{
    let limit = asked(s);
    let at = s.control.got;
    let filled = runs::run0_in(windows, reply, at, limit, s.port.line);
    let mut next = s.after_run(filled.ran);
    next.control.got = filled.at;
    if filled.ran.done | (limit <= filled.at) {
        return at_status(next);
    }
    next
}

// The data stage towards the device, of which no request here has a byte.
fn data_out(s: State, windows: &mut Windows<'_>) -> State
    requires { Ready s }
    ensures left { (p : List ℕ) → P.Stages C.data_out s (memory_of windows.old) p result (memory_of windows.new) p }
    ensures same { SameWindows windows.old windows.new }
{
    let ran = runs::run0_out(windows, b"", s.port.line);
    let next = s.after_run(ran);
    if ran.done {
        return at_status(next);
    }
    next
}

// The data stage, unless it is over, where the request has one.
#[tactic(auto, using(bus::proofs::Lengths::sized_of), unfolding(bus::specs::Steps::choose, record::specs::Change::nothing, record::specs::Change::one, record::specs::Change::apply, model::specs::Control::data_stage, model::specs::Control::to_status))]
fn data_stage(s: State, windows: &mut Windows<'_>, reply: &mut [u8]) -> State
    requires { Ready s × (Sizes.REPLY ≤ length reply.old) }
    ensures left { P.Stages P.data_first s (memory_of windows.old) reply.old result (memory_of windows.new) reply.new }
    ensures same { SameWindows windows.old windows.new }
{
    if let Stage::Status = s.control.stage {
        return s;
    }
    if asked(s) == 0 {
        return at_status(s);
    }
    if to_host(s) {
        return data_in(s, windows, reply);
    }
    data_out(s, windows)
}

// The run of the status stage: the other direction, and no bytes.
fn status_stage(s: State, windows: &mut Windows<'_>, reply: &mut [u8]) -> Ran
    requires { Ready s }
    ensures left { P.Acknowledges s (memory_of windows.old) result (memory_of windows.new) × (reply.new ≡ reply.old) }
    ensures same { SameWindows windows.old windows.new }
{
    if to_host(s) & (asked(s) != 0) {
        return runs::run0_out(windows, b"", s.port.line);
    }
    runs::run0_in(windows, reply, 0, 0, s.port.line).ran
}

// The status stage, and the end of the request where it completes.
fn acknowledge(
    s: State,
    device_stack: bool,
    setups: &mut [u8; SETUP_BYTES],
    device: &mut [u8; DEVICE],
    windows: &mut Windows<'_>,
    reply: &mut [u8],
    config: &mut [u8],
) -> State
    requires { Ready s × ((Sizes.REPLY ≤ length reply.old) × (Sizes.REPLY ≤ length config.old)) }
    ensures left { P.Controls (C.status_stage device_stack) s (memory_of windows.old) setups.old device.old reply.old config.old result (memory_of windows.new) setups.new device.new reply.new config.new }
    ensures same { SameWindows windows.old windows.new }
{
    let ran = status_stage(s, windows, reply);
    let next = s.after_run(ran);
    if ran.done {
        return finished::finished(next, device_stack, setups, device, &*reply, config);
    }
    unless_late(next)
}

// One microframe of the request that runs; a stalled endpoint 0 refuses it.
fn request(
    s: State,
    device_stack: bool,
    setups: &mut [u8; SETUP_BYTES],
    device: &mut [u8; DEVICE],
    windows: &mut Windows<'_>,
    reply: &mut [u8],
    config: &mut [u8],
) -> State
    requires { Ready s × ((Sizes.REPLY ≤ length reply.old) × (Sizes.REPLY ≤ length config.old)) }
    ensures left { P.Controls (C.requests device_stack) s (memory_of windows.old) setups.old device.old reply.old config.old result (memory_of windows.new) setups.new device.new reply.new config.new }
    ensures same { SameWindows windows.old windows.new }
{
    let epcr0 = word_at(windows.registers(), EPCR0);
    if bits::any(epcr0, STALLED) {
        let refused = ended(s);
        let page = &mut *windows.page;
        put_at(page, EPCR0, bits::clear(epcr0, STALLED));
        return refused;
    }
    let next = data_stage(s, windows, reply);
    match next.control.stage {
        Stage::Data => unless_late(next),
        Stage::Status => acknowledge(next, device_stack, setups, device, windows, reply, config),
    }
}

// Control in one microframe: the running request goes on, or the next setup is posted, or enumeration ends.
#[tactic(auto, unfolding(bus::specs::Steps::choose, model::specs::Control::controls))]
pub fn control(
    s: State,
    device_stack: bool,
    setups: &mut [u8; SETUP_BYTES],
    device: &mut [u8; DEVICE],
    windows: &mut Windows<'_>,
    reply: &mut [u8],
    config: &mut [u8],
) -> State
    requires { P.Bounded s × ((Sizes.REPLY ≤ length reply.old) × (Sizes.REPLY ≤ length config.old)) }
    ensures left { P.Controls (C.controls device_stack) s (memory_of windows.old) setups.old device.old reply.old config.old result (memory_of windows.new) setups.new device.new reply.new config.new }
    ensures same { SameWindows windows.old windows.new }
{
    if s.control.on {
        return request(s, device_stack, setups, device, windows, reply, config);
    }
    let Some(setup) = next_setup(&*setups, s.lengths.setups) else {
        return configured(s);
    };
    post(s, setups, windows, setup)
}
