// The bounds of a host record (number 5), decided: a test for each clause, and all of them.
#![tactic(auto)]

ghost use Rattle.std.specs.Prelude.{◌≡◌, Bool, ℕ, ◌<◌};
ghost use Rattle.record.specs.Sizes as Sizes;
ghost use Rattle.bounds.specs.Bounds as B;

use gptimers::{Timers, ZERO};
use midi::{CABLES, Packer};
use record::{
    Audio, Control, Counter, DEVICE, GET_CONFIGURATION, GET_DEVICE, Lengths, Phase, QUEUE, Ring,
    SET_ADDRESS, SET_CONFIGURATION, SET_INTERFACE, SETUP_BYTES, SETUPS, State, word_from,
};

// The most microframes of a host.
const MOST: u64 = 0x100_0000_0000;

// Whether a test holds of each number below n. Every number is tested, so that no branch waits for an answer.
fn every<F: Fn(usize) -> bool>(n: usize, test: F) -> bool
    requires { (k : ℕ) → k < n → F.pre test k }
    ensures { (of : ℕ → Bool) → ((k : ℕ) (b : Bool) → k < n → F.post test k b → b ≡ of k) → result ≡ B.every of n }
{
    let mut ok = true;
    for i in 0..n {
        ok &= test(i);
    }
    ok
}

// Whether the source makes a setup with these two words.
pub fn made(first: u32, second: u32) -> bool
    ensures { result ≡ B.made first second }
{
    let device = (first == GET_DEVICE) & ((second == 0x0040_0000) | (second == 0x0012_0000));
    let address = (first == SET_ADDRESS) & (second == 0);
    let configuration = (first == GET_CONFIGURATION) & (second % 0x1_0000 == 0);
    let set = (first == SET_CONFIGURATION) & (second == 0);
    let alternate = first / 0x1_0000;
    let interface = ((first % 0x1_0000 == SET_INTERFACE) & ((0 < alternate) & (alternate < 256)))
        & (second < 256);
    device | (address | (configuration | (set | interface)))
}

// Whether the source makes setup i of the queue.
#[tactic(auto, unfolding(crate::specs::Bounds::made_at))]
fn made_at(setups: &[u8; SETUP_BYTES], i: usize) -> bool
    requires { i < Sizes.SETUPS }
    ensures { result ≡ B.made_at setups.now i }
{
    let first = word_from(setups, 8 * i);
    let second = word_from(setups, 8 * i + 4);
    made(first, second)
}

// The setups that wait.
pub fn setups_ok(n: usize, setups: &[u8; SETUP_BYTES]) -> bool
    ensures { result ≡ B.setups_ok n setups.now }
{
    if SETUPS < n {
        return false;
    }
    let each = every(n, |i| made_at(setups, i));
    let last = every(n.saturating_sub(1), |i| {
        word_from(setups, 8 * i) != GET_CONFIGURATION
    });
    each & last
}

// No setup waits and none runs outside enumeration.
#[tactic(auto, unfolding(crate::specs::Bounds::enumerating_ok))]
pub fn enumerating_ok(s: State) -> bool
    ensures { result ≡ B.enumerating_ok s }
{
    let inside = matches!(s.phase, Phase::Enumerate);
    inside | ((s.lengths.setups == 0) & !s.control.on)
}

// A running request.
#[tactic(auto, unfolding(crate::specs::Bounds::request_ok))]
pub fn request_ok(c: Control, waiting: usize, uf: u64) -> bool
    ensures { result ≡ B.request_ok c waiting uf }
{
    if !c.on {
        return true;
    }
    let known = made(c.first, c.second);
    let alone = !(c.first == GET_CONFIGURATION) | (waiting == 0);
    let asked = (c.second / 0x1_0000) as usize;
    known & (alone & ((c.t0 <= uf) & (c.got <= asked)))
}

// The queues and the device descriptor.
#[tactic(auto, unfolding(crate::specs::Bounds::queues_ok))]
pub fn queues_ok(l: Lengths) -> bool
    ensures { result ≡ B.queues_ok l }
{
    (l.midi <= QUEUE) & ((l.midi % 4 == 0) & ((l.serial <= QUEUE) & (l.device <= DEVICE)))
}

// The bytes that a packer holds.
#[tactic(auto, unfolding(crate::specs::Bounds::packer_ok))]
pub fn packer_ok(p: Packer) -> bool
    ensures { result ≡ B.packer_ok p }
{
    if p.held == 0 {
        return true;
    }
    let two = midi::message_length(p.status) == 2;
    (p.held <= 2) & (p.sysex | !two)
}

// The bytes that the packers hold: of most records no packer holds any, which is seen at once.
pub fn packers_ok(packers: [Packer; CABLES]) -> bool
    ensures { result ≡ B.packers_ok packers }
{
    if every(CABLES, |i| packers[i].held == 0) {
        return true;
    }
    every(CABLES, |i| packer_ok(packers[i]))
}

// The two microframe counts and the phase's start.
#[tactic(auto, unfolding(crate::specs::Bounds::counts_ok))]
pub fn counts_ok(s: State) -> bool
    ensures { result ≡ B.counts_ok s }
{
    let n = s.counter(Counter::Microframes);
    (n == s.port.uf) & ((s.port.uf <= MOST) & (s.port.t <= s.port.uf))
}

// The counters but that of microframes.
pub fn counters_ok(r: [u64; record::COUNTERS]) -> bool
    ensures { result ≡ B.counters_ok r }
{
    let most = 32767 * r[Counter::Microframes as usize].min(MOST);
    every(record::COUNTERS - 1, |k| r[k + 1] <= most)
}

// The credit after n microframes.
#[tactic(auto, unfolding(crate::specs::Bounds::credit_ok))]
pub fn credit_ok(credit: u64, n: u64) -> bool
    ensures { result ≡ B.credit_ok credit n }
{
    let most = 623 * n.min(MOST);
    (credit % (Audio::FRAMES_PER_BLOCK as u64) == 0) & (credit <= most)
}

// A timer after n microframes.
#[tactic(auto, unfolding(crate::specs::Bounds::timer_ok))]
pub fn timer_ok(timer: Option<u64>, n: u64) -> bool
    ensures { result ≡ B.timer_ok timer n }
{
    match timer {
        Some(count) => {
            let least = ZERO - 125 * n.min(MOST);
            (least <= count) & (count <= 0x4_0000_0100_0000)
        }
        None => true,
    }
}

// Both timers.
#[tactic(auto, unfolding(crate::specs::Bounds::timers_ok))]
pub fn timers_ok(ts: Timers, n: u64) -> bool
    ensures { result ≡ B.timers_ok ts n }
{
    timer_ok(ts.zero, n) & timer_ok(ts.one, n)
}

// The input budget, the block and its channels.
#[tactic(auto, unfolding(crate::specs::Bounds::audio_ok))]
pub fn audio_ok(a: Audio) -> bool
    ensures { result ≡ B.audio_ok a }
{
    if a.block < 33 {
        return false;
    }
    let channels = Audio::channels_in(a.block);
    (a.budget <= 32766) & ((a.block <= 2047) & (a.channels == channels))
}

// A ring that has room for `capacity` frames.
#[tactic(auto, unfolding(crate::specs::Bounds::ring_ok))]
pub fn ring_ok(r: Ring, capacity: usize) -> bool
    ensures { result ≡ B.ring_ok r capacity }
{
    (r.start < capacity) & (r.len <= capacity)
}

// Configuration and reply in areas of these lengths.
#[tactic(auto, unfolding(crate::specs::Bounds::areas_ok))]
pub fn areas_ok(s: State, reply: usize, config: usize) -> bool
    ensures { result ≡ B.areas_ok s reply config }
{
    (s.lengths.config <= config) & (!s.control.on | (s.control.got <= reply))
}

// The counts of a record: microframes, counters, credit and timers.
fn counted_ok(s: State) -> bool
    ensures { result ≡ B.counted_ok s }
{
    let stats = s.stats;
    let timers = s.timers;
    let n = s.counter(Counter::Microframes);
    counts_ok(s) & (counters_ok(stats) & (credit_ok(s.audio.credit, n) & timers_ok(timers, n)))
}

// The whole record, but for what an area bounds.
#[tactic(auto, unfolding(crate::specs::Bounds::in_bounds))]
pub fn in_bounds(s: State, packers: [Packer; CABLES], setups: &[u8; SETUP_BYTES]) -> bool
    ensures { result ≡ B.in_bounds s packers setups.now }
{
    let control = s.control;
    let lengths = s.lengths;
    let audio = s.audio;
    let waiting = s.lengths.setups;
    let asked = setups_ok(waiting, setups)
        & (enumerating_ok(s) & request_ok(control, waiting, s.port.uf));
    let held = queues_ok(lengths) & packers_ok(packers);
    asked & (held & (counted_ok(s) & audio_ok(audio)))
}
