// The steps of a microframe that touch only the record and the register page: counts, timers, spans, and the phases before enumeration.
#![tactic(auto)]

ghost use Rattle.std.specs.Prelude.{◌≡◌, ◌+◌, ◌*◌, ◌≤◌, true, length};
ghost use Rattle.std.proofs.lemmas.List.Edits.{sets};
ghost use Rattle.bits.specs.Word as B;
ghost use Rattle.gptimers.specs.Timer.{in_range};
ghost use Rattle.record.specs.Change.{on_page};
ghost use Rattle.record.specs.Did.{Alone, Paged};
ghost use Rattle.model.specs.Phases as M;
ghost use Rattle.phases.specs.Promises.{Changed, Queued};
ghost use Rattle.record.specs.Sizes as Sizes;

use bus::{PAGE, put_at, word_at};
use record::{
    Counter, GET_CONFIGURATION, GET_DEVICE, Phase, SET_ADDRESS, SETUP_BYTES, Span, State,
};
use usbdev::{FRINDEX, OTGSC, PORTSC1, USBSTS};

// Bits of USBSTS: port change, bus reset, start of frame, suspend (SLI).
const PCI: u32 = 0x4;

const URI: u32 = 0x40;

const SRI: u32 = 0x80;

const SLI: u32 = 0x100;

// OTGSC: VBUS is valid (BSV, AVV, ASV), and the B session has changed (BSE, BSVIS).
const VALID: u32 = 0xE00;

const SESSION: u32 = 0x8_1000;

// PORTSC1: suspended, reset, and connected with enabled; the speed's field, and high speed in it.
const SUSPENDED: u32 = 0x80;

const RESET: u32 = 0x100;

const ENABLED: u32 = 0x5;

const SPEED: u32 = 0xC00_0000;

const HIGH_SPEED: u32 = 0x800_0000;

// Microframes from VBUS to the bus reset, and from there to the port's report, at high speed.
const VBUS_WAIT: u64 = 400;

const RESET_WAIT: u64 = 80;

// The two counts of microframes.
#[tactic(auto, unfolding(model::specs::Phases::counts, bus::specs::Steps::and_then, record::specs::Change::one, record::specs::Change::apply, record::specs::Record::raised))]
pub fn counts(s: State) -> State
    ensures { Alone M.counts s result }
{
    let mut next = s.count(Counter::Microframes, 1);
    next.port.uf = s.port.uf.wrapping_add(1);
    next
}

// The general-purpose timers.
pub fn timers(mut s: State, page: &mut [u8; PAGE]) -> State
    requires { (in_range s.timers.zero ≡ true) × (in_range s.timers.one ≡ true) }
    ensures { Paged M.ticks s page.old result page.new }
{
    let both = gptimers::gptimers(page, s.timers, gptimers::STEP, s.port.line);
    s.timers = both.next;
    s.port.line = both.line;
    s
}

// Whether a span holds the time t: its start and not its end.
pub fn in_span(span: Span, t: u64) -> bool
    ensures { result ≡ M.within span t }
{
    (span.from <= t) & (t < span.to)
}

// Whether one of the spans holds the time t.
pub fn any_span(spans: &[Span], t: u64) -> bool
    ensures { result ≡ M.any_span spans.now t }
{
    spans.iter().any(|span| in_span(*span, t))
}

// A register's word is changed, and bits of USBSTS are raised: the line's flag after that.
fn change<F: FnOnce(u32) -> u32>(
    page: &mut [u8; PAGE],
    at: usize,
    sts: u32,
    flag: bool,
    f: F,
) -> bool
    requires fits { at + 4 ≤ PAGE }
    requires callable { F.IsAlwaysCallable f }
    ensures { Changed (F.post f) at sts flag page.old page.new result }
{
    let word = word_at(&*page, at);
    put_at(page, at, f(word));
    usbdev::raise(page, sts, flag)
}

// The cable comes out: VBUS goes, the port is detached, and the device sees the session change.
fn cable_out(mut s: State, page: &mut [u8; PAGE]) -> State
    ensures { Paged (on_page M.unplugging) s page.old result page.new }
{
    let otg = word_at(&*page, OTGSC);
    put_at(page, OTGSC, bits::set(bits::clear(otg, VALID), SESSION));
    s.port.line = change(
        page,
        PORTSC1,
        PCI,
        s.port.line,
        |port| bits::clear(port, ENABLED | SUSPENDED),
    );
    s
}

// What a host that starts anew has forgotten: setups, the request, credit, budget, and both descriptors.
#[tactic(auto, unfolding(model::specs::Phases::forgets, model::specs::Phases::drops_request, bus::specs::Steps::and_then, record::specs::Change::one, record::specs::Change::apply))]
fn fresh(mut s: State) -> State
    ensures { Alone M.forgets s result }
{
    s.lengths.setups = 0;
    s.control.on = false;
    s.audio.credit = 0;
    s.audio.budget = 0;
    s.lengths.device = 0;
    s.lengths.config = 0;
    s
}

// The host is back: a fresh one, in the phase that raises VBUS.
#[tactic(auto, using(bus::specs::Steps::exec_then), unfolding(model::specs::Phases::returns, record::specs::Change::one, record::specs::Change::apply, record::specs::Record::raised))]
fn host_back(s: State) -> State
    ensures { Alone M.returns s result }
{
    fresh(s.with_phase(Phase::Idle)).count(Counter::Restarts, 1)
}

// The host goes or comes back where `gone` differs from what the record says.
#[tactic(auto, using(bus::specs::Steps::exec_then), unfolding(model::specs::Phases::cable, record::specs::Change::nothing, record::specs::Change::one, record::specs::Change::apply, bus::specs::Steps::choose, bus::specs::Steps::and_then))]
pub fn gone_step(mut s: State, page: &mut [u8; PAGE], gone: bool) -> State
    ensures { Paged (M.cable gone) s page.old result page.new }
{
    if gone == s.port.gone {
        return s;
    }
    s.port.gone = gone;
    if gone {
        cable_out(s, page)
    } else {
        host_back(s)
    }
}

// One more microframe in which the host read no MIDI.
#[tactic(auto, unfolding(model::specs::Phases::sleeps, record::specs::Change::one, record::specs::Change::apply, record::specs::Record::raised))]
pub fn asleep(s: State) -> State
    ensures { Alone M.sleeps s result }
{
    s.count(Counter::MidiAsleep, 1)
}

// The bus is suspended, or resumed by a port change, where `asleep` differs from what the record says.
#[tactic(auto, unfolding(model::specs::Phases::suspends, record::specs::Change::nothing, bus::specs::Steps::choose))]
pub fn suspend_step(mut s: State, page: &mut [u8; PAGE], asleep: bool) -> State
    ensures { Paged (M.suspends asleep) s page.old result page.new }
{
    if asleep == s.port.suspended {
        return s;
    }
    s.port.suspended = asleep;
    s.port.line = if asleep {
        change(
            page,
            PORTSC1,
            SLI,
            s.port.line,
            |port| bits::set(port, SUSPENDED),
        )
    } else {
        change(
            page,
            PORTSC1,
            PCI,
            s.port.line,
            |port| bits::clear(port, SUSPENDED),
        )
    };
    s
}

// The device has left the bus: the host waits for it as after VBUS.
#[tactic(auto, using(bus::specs::Steps::exec_then), unfolding(model::specs::Phases::departs, model::specs::Phases::enters, record::specs::Change::one, record::specs::Change::apply, bus::specs::Steps::and_then))]
fn device_left(mut s: State) -> State
    ensures { Alone M.departs s result }
{
    s.port.was_running = false;
    fresh(s.enter(Phase::Vbus))
}

// The firmware's run bit is followed where the device stack is set.
#[tactic(auto, unfolding(model::specs::Phases::leaves, record::specs::Change::nothing, record::specs::Change::one, record::specs::Change::apply, bus::specs::Steps::choose))]
pub fn left_step(mut s: State, running: bool, device_stack: bool) -> State
    ensures { Alone (M.leaves device_stack running) s result }
{
    if !device_stack {
        return s;
    }
    if running {
        s.port.was_running = true;
        return s;
    }
    if s.port.was_running {
        return device_left(s);
    }
    s
}

// Cable in: VBUS is valid, and the line follows the session's interrupt.
pub fn idle(s: State, page: &mut [u8; PAGE]) -> State
    ensures { Paged M.idles s page.old result page.new }
{
    let otg = word_at(&*page, OTGSC);
    put_at(page, OTGSC, bits::set(otg, VALID | SESSION));
    let mut next = s.enter(Phase::Vbus);
    next.port.line = usbdev::line(&*page);
    next
}

// The bus reset, once the firmware runs and VBUS has stood long enough.
#[tactic(auto, unfolding(model::specs::Phases::powers, record::specs::Change::nothing, bus::specs::Steps::choose))]
pub fn vbus(s: State, page: &mut [u8; PAGE], running: bool) -> State
    ensures { Paged (M.powers running) s page.old result page.new }
{
    let waited = s.port.t.wrapping_add(VBUS_WAIT) < s.port.uf;
    if running & waited {
        let mut next = s.enter(Phase::Reset);
        next.port.line = change(
            page,
            PORTSC1,
            URI,
            s.port.line,
            |port| bits::set(port, RESET),
        );
        return next;
    }
    s
}

// The port's report behind a reset: connected, enabled, high speed.
fn enabled(port: u32) -> u32
    ensures { result ≡ B.set (B.clear port 0x0C000100) 0x08000005 }
{
    bits::set(bits::clear(port, RESET | SPEED), ENABLED | HIGH_SPEED)
}

// The first four setups go behind those that wait: the device descriptor's first 64 bytes, address 7, the device descriptor, the configuration's header.
fn first_setups(setups: &mut [u8; SETUP_BYTES], count: usize)
    requires { count + 4 ≤ Sizes.SETUPS }
    ensures { setups.new ≡ sets setups.old (8 * count) M.first_setups }
{
    record::put_setup(setups, count, GET_DEVICE, 0x0040_0000);
    record::put_setup(setups, count + 1, SET_ADDRESS, 0);
    record::put_setup(setups, count + 2, GET_DEVICE, 0x0012_0000);
    record::put_setup(setups, count + 3, GET_CONFIGURATION, 0x0009_0000);
}

// The reset is done once the firmware has seen it and it has stood long enough: enumeration starts.
#[tactic(auto, unfolding(model::specs::Phases::resets, record::specs::Change::nothing, bus::specs::Steps::choose))]
pub fn reset(s: State, page: &mut [u8; PAGE], setups: &mut [u8; SETUP_BYTES]) -> State
    requires { s.lengths.setups + 4 ≤ Sizes.SETUPS }
    ensures { Queued M.resets s page.old setups.old result page.new setups.new }
{
    let waited = s.port.t.wrapping_add(RESET_WAIT) < s.port.uf;
    let seen = !bits::any(word_at(&*page, USBSTS), URI);
    if waited & seen {
        let mut next = s.enter(Phase::Enumerate);
        next.port.line = change(page, PORTSC1, PCI, s.port.line, enabled);
        first_setups(setups, s.lengths.setups);
        next.lengths.setups = s.lengths.setups + 4;
        return next;
    }
    s
}

// The start of a microframe on the bus: FRINDEX counts it.
pub fn start_of_frame(mut s: State, page: &mut [u8; PAGE]) -> State
    ensures { Paged M.starts_frame s page.old result page.new }
{
    s.port.line = change(
        page,
        FRINDEX,
        SRI,
        s.port.line,
        |frame| usbdev::next_frindex(frame, 1),
    );
    s
}
