// The general-purpose timers of the USB controller.
#![tactic(auto)]

ghost use Rattle.std.specs.Prelude.{◌≡◌, Bool, true, ◌+◌, ◌<◌, ◌≤◌, ◌^◌};
ghost use Rattle.usbdev.specs.Registers.{registers, done};
ghost use Rattle.gptimers.specs.Timer as T;
ghost use Rattle.gptimers.specs.Timer.{index_of};
ghost use Rattle.gptimers.specs.Checked as C;
ghost use Rattle.gptimers.specs.Checked.{ticked_of};

use bus::{PAGE, put_at, word_at};
use refusal::Refusal;

// The count that stands for 0; lower ones are below zero.
pub const ZERO: u64 = 0x4_0000_0000_0000;

// Microseconds that a microframe takes at high speed.
pub const STEP: u64 = 125;

const RUN: u32 = 0x8000_0000;

const RESET: u32 = 0x4000_0000;

const REPEAT: u32 = 0x100_0000;

// Which timer of the controller: GPTIMER0 or GPTIMER1.
#[derive(Clone, Copy)]
enum Which {
    Zero,
    One,
}

impl Which {
    // The offset of its load register.
    fn load(self) -> usize
        ensures { (result ≡ T.load_register (index_of self)) × (result ≤ 0x88) }
    {
        match self {
            Which::Zero => 0x80,
            Which::One => 0x88,
        }
    }

    // The offset of its control register.
    fn control(self) -> usize
        ensures { (result ≡ T.control_register (index_of self)) × (result ≤ 0x8C) }
    {
        match self {
            Which::Zero => 0x84,
            Which::One => 0x8C,
        }
    }

    // Its bit of USBSTS.
    fn bit(self) -> u32
        ensures { result ≡ 2 ^ (24 + index_of self) }
    {
        match self {
            Which::Zero => 0x100_0000,
            Which::One => 0x200_0000,
        }
    }
}

// Both timers of the controller: the count of each, where one stands.
#[derive(Clone, Copy, Debug, PartialEq, Eq)]
pub struct Timers {
    pub zero: Option<u64>,
    pub one: Option<u64>,
}

// What a microframe leaves of a timer, or of both, and the line's flag.
#[derive(Clone, Copy)]
pub struct Timed<T> {
    pub next: T,
    pub line: bool,
}

// Whether a count that stands is within the bounds of number 5.
#[tactic(auto, unfolding(crate::specs::Timer::in_range))]
pub fn in_range(timer: Option<u64>) -> bool
    ensures { result ≡ T.in_range timer }
{
    match timer {
        Some(count) => (0x3_8300_0000_0000 <= count) & (count <= 0x4_0000_0100_0000),
        None => true,
    }
}

// A timer once its control word's reset bit was seen.
#[tactic(auto, unfolding(crate::specs::Timer::after_reset))]
fn after_reset(timer: Option<u64>, c: u32) -> Option<u64>
    ensures { result ≡ T.after_reset c timer }
{
    if bits::any(c, RESET) { None } else { timer }
}

// The 24 bits of timer k's load register.
#[tactic(auto, unfolding(crate::specs::Timer::load_of))]
fn load_of(page: &[u8; PAGE], k: Which) -> u64
    ensures { (result ≡ T.load_of (index_of k) page.now) × (result < 2 ^ 24) }
{
    u64::from(word_at(page, k.load()) & 0xFF_FFFF)
}

// Takes the reset bit out of timer k's control word.
#[tactic(auto, unfolding(crate::specs::Timer::resetting, usbdev::specs::Registers::store))]
fn reset(page: &mut [u8; PAGE], k: Which, c: u32)
    ensures { (l : Bool) → registers page.new l ≡ done (T.resetting (index_of k) c) (registers page.old l) }
{
    if bits::any(c, RESET) {
        put_at(page, k.control(), bits::clear(c, RESET));
    }
}

// Where the count of timer k starts in a microframe.
#[tactic(auto, using(crate::proofs::Laws::range), unfolding(crate::specs::Timer::start_of))]
fn start_of(page: &[u8; PAGE], k: Which, t: Option<u64>) -> u64
    requires t_value { T.in_range t ≡ true }
    ensures { (result ≡ T.start_of (index_of k) t page.now) × ((1000 ≤ result) × (result ≤ T.HIGHEST)) }
{
    match t {
        Some(count) => count,
        None => ZERO + load_of(page, k),
    }
}

// Stops timer k unless it repeats: the control word is stored as first read, without its run bit.
#[tactic(auto, unfolding(crate::specs::Timer::stopping, usbdev::specs::Registers::store))]
fn stop(page: &mut [u8; PAGE], k: Which, c: u32)
    ensures { (l : Bool) → registers page.new l ≡ done (T.stopping (index_of k) c) (registers page.old l) }
{
    if bits::any(c, REPEAT) {
        return;
    }
    put_at(page, k.control(), bits::clear(c, RUN));
}

// How timer k stands after it expired with `left` below zero.
#[tactic(auto, unfolding(crate::specs::Timer::next))]
fn next_of(page: &[u8; PAGE], k: Which, c: u32, left: u64) -> Option<u64>
    requires { left < T.ZERO }
    ensures { result ≡ T.next (index_of k) c left page.now }
{
    if bits::any(c, REPEAT) {
        return Some(left + 1 + load_of(page, k));
    }
    None
}

// Timer k expires with `left` below zero.
#[tactic(auto, using(usbdev::proofs::Laws::done_then), unfolding(crate::specs::Timer::expiring, crate::specs::Timer::expired))]
fn expire(page: &mut [u8; PAGE], k: Which, c: u32, left: u64, flag: bool) -> Timed<Option<u64>>
    requires { left < T.ZERO }
    ensures { (registers page.new result.line ≡ done (T.expiring (index_of k) c) (registers page.old flag)) × (result.next ≡ T.expired (index_of k) c left (registers page.old flag)) }
{
    let line = usbdev::raise(page, k.bit(), flag);
    let next = next_of(&*page, k, c, left);
    stop(page, k, c);
    Timed { next, line }
}

// Timer k after the reset, in one microframe of `step` microseconds.
#[tactic(auto, unfolding(crate::specs::Timer::counted, crate::specs::Timer::counted_timer))]
fn count(
    page: &mut [u8; PAGE],
    k: Which,
    c: u32,
    t: Option<u64>,
    step: u64,
    flag: bool,
) -> Timed<Option<u64>>
    requires step_bound { step ≤ 1000 }
    requires t_value { T.in_range t ≡ true }
    ensures { (registers page.new result.line ≡ done (T.counted step (index_of k) c t) (registers page.old flag)) × (result.next ≡ T.counted_timer step (index_of k) c t (registers page.old flag)) }
{
    if bits::any(c, RUN) {
        let left = start_of(&*page, k, t) - step;
        if left < ZERO {
            return expire(page, k, c, left, flag);
        }
        return Timed {
            next: Some(left),
            line: flag,
        };
    }
    Timed {
        next: t,
        line: flag,
    }
}

// One microframe of timer k.
#[tactic(auto, using(crate::proofs::Laws::range_reset, usbdev::proofs::Laws::done_then), unfolding(crate::specs::Timer::ticking, crate::specs::Timer::ticked))]
fn gptimer(
    page: &mut [u8; PAGE],
    k: Which,
    t: Option<u64>,
    step: u64,
    flag: bool,
) -> Timed<Option<u64>>
    requires step_bound { step ≤ 1000 }
    requires t_value { T.in_range t ≡ true }
    ensures { (registers page.new result.line ≡ done (T.ticking step (index_of k) t) (registers page.old flag)) × (result.next ≡ T.ticked step (index_of k) t (registers page.old flag)) }
{
    let c = word_at(&*page, k.control());
    reset(page, k, c);
    let kept = after_reset(t, c);
    count(page, k, c, kept, step, flag)
}

// Both timers in one microframe of `step` microseconds; the line's flag goes in and comes out.
#[tactic(auto, using(usbdev::proofs::Laws::done_then), unfolding(crate::specs::Timer::ticking_both, crate::specs::Timer::ticked_both))]
pub fn gptimers(page: &mut [u8; PAGE], ts: Timers, step: u64, flag: bool) -> Timed<Timers>
    requires step_bound { step ≤ 1000 }
    requires zero_value { (T.in_range ts.zero ≡ true) × (T.in_range ts.one ≡ true) }
    ensures { (registers page.new result.line ≡ done (T.ticking_both step ts) (registers page.old flag)) × (result.next ≡ T.ticked_both step ts (registers page.old flag)) }
{
    let first = gptimer(page, Which::Zero, ts.zero, step, flag);
    let second = gptimer(page, Which::One, ts.one, step, first.line);
    Timed {
        next: Timers {
            zero: first.next,
            one: second.next,
        },
        line: second.line,
    }
}

// Both timers in one microframe at high speed, on a page of any length and with any counts. A refusal leaves timers, flag and page.
#[tactic(auto, unfolding(crate::specs::Checked::refusal, crate::specs::Checked::ticked_answer, crate::specs::Checked::ticked_page))]
pub fn checked_gptimers(page: &mut [u8], ts: Timers, flag: bool) -> Result<Timed<Timers>, Refusal>
    ensures { (ticked_of ts flag result ≡ C.ticked_answer ts (registers page.old flag)) × (page.new ≡ C.ticked_page ts (registers page.old flag)) }
{
    let page = page.as_mut_array::<PAGE>().ok_or(Refusal::Windows)?;
    if !(in_range(ts.zero) && in_range(ts.one)) {
        return Err(Refusal::Bounds);
    }
    Ok(gptimers(page, ts, STEP, flag))
}
