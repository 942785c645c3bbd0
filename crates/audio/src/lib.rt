// The audio stream of a host: one descriptor of input a microframe, paced by a budget, and one block of output, where credit is left.
#![tactic(auto)]

ghost use Rattle.std.specs.Prelude.{◌≡◌, ◌≤◌, true, length};
ghost use Rattle.bus.specs.Windows.{viewed, memory_of, SameWindows};
ghost use Rattle.bus.specs.Memory.{shown};
ghost use Rattle.bus.specs.Sized.{is_power};
ghost use Rattle.dtd.specs.Dtd as D;
ghost use Rattle.dtd.specs.declared.Found.TheVariants.{Active};
ghost use Rattle.model.specs.Audio as Steps;
ghost use Rattle.blocks.specs.Promises.{InRing, with_decoded};
ghost use Rattle.audio.specs.Promises as P;

use blocks::Decoded;
use bus::{PAGE, SRAM, View, Windows};
use dtd::{Descriptor, Found};
use record::{Audio, Counter, RING, Ring, State};
use sending::encode;
use usbdev::EPSR;

// The bits of endpoint 3 in EPSR.
const AUDIO_IN: u32 = 0x8_0000;

const AUDIO_OUT: u32 = 0x8;

// The input budget of a microframe, and whether the next descriptor has more bytes than it allows.
#[derive(Clone, Copy)]
pub struct Paced {
    pub budget: u64,
    pub waits: bool,
}

// One packet a microframe: a descriptor of n packets completes in its n-th.
#[tactic(auto, unfolding(dtd::specs::Dtd::primed))]
fn pace(view: View<'_>, budget: u64) -> Paced
    ensures { result ≡ P.paced_of (viewed view.entry) budget }
{
    let page = view.page;
    if !bits::any(bus::word_at(page, EPSR), AUDIO_IN) {
        return Paced {
            budget,
            waits: false,
        };
    }
    let qh = dtd::qh(page, 3, true);
    let td = dtd::next_dtd(view, qh);
    if bits::any(td, 1) {
        return Paced {
            budget,
            waits: false,
        };
    }
    let total = usbdev::total(dtd::token_of(view, td)) as u64;
    let grown = budget.wrapping_add(Audio::BLOCK as u64);
    if grown < total {
        return Paced {
            budget: grown,
            waits: true,
        };
    }
    Paced {
        budget: 0,
        waits: false,
    }
}

// What blocks change of a state: put back, it leaves the state as it is.
#[tactic(auto, using(record::proofs::Counters::counter_kept))]
fn decoded_of(s: State) -> Decoded
    ensures value { result ≡ P.decoded_of s }
    ensures result_value { with_decoded s result ≡ s }
{
    Decoded {
        ring: s.audio.received,
        credit: s.audio.credit,
        frames: s.counter(Counter::InFrames),
        bad: s.counter(Counter::BadBlocks),
    }
}

// The state with what the blocks of a run left.
fn with_decoded(s: State, d: Decoded) -> State
    ensures { result ≡ with_decoded s d }
{
    let counted = s.with_counter(Counter::InFrames, d.frames);
    let mut next = counted.with_counter(Counter::BadBlocks, d.bad);
    next.audio.received = d.ring;
    next.audio.credit = d.credit;
    next
}

// A run that brought a byte or a completion is counted.
fn count_in(s: State, brought: bool) -> State
    ensures { result ≡ P.counted_in s brought }
{
    if brought {
        return s.count(Counter::InTransfers, 1);
    }
    s
}

// Input of an active descriptor: its blocks are decoded before it is retired.
#[tactic(auto, using(usbdev::proofs::Tokens::total_lt))]
fn take_blocks(
    s: State,
    windows: &mut Windows<'_>,
    received: &mut [u32; RING],
    descriptor: Descriptor,
) -> State
    requires in_ring { InRing s.audio.received }
    requires page_value { D.found Steps.audio_in (memory_of windows.old) ≡ Active descriptor }
    ensures left { P.Hears Steps.inputs s (memory_of windows.old) received.old result (memory_of windows.new) received.new }
    ensures same { SameWindows windows.old windows.new }
{
    let total = usbdev::total(descriptor.token) as usize;
    let ps = transfer::pointers_for(windows.view(), bits::clear(descriptor.pointer, 0x1F), total);
    let before = decoded_of(s);
    let d = blocks::decode_run(windows.view(), &ps, total, received, before);
    let ran = dtd::take_one(windows, descriptor, s.port.line);
    let next = count_in(s.after_run(ran), ran.done | (total != 0));
    with_decoded(next, d)
}

// Input that the budget allows.
fn take_input(s: State, windows: &mut Windows<'_>, received: &mut [u32; RING]) -> State
    requires { InRing s.audio.received }
    ensures left { P.Hears Steps.inputs s (memory_of windows.old) received.old result (memory_of windows.new) received.new }
    ensures same { SameWindows windows.old windows.new }
{
    match dtd::begin(windows, 3, true, s.port.line) {
        Ok(descriptor) => take_blocks(s, windows, received, descriptor),
        Err(ran) => s.after_run(ran),
    }
}

// The input step.
pub fn stream_in(s: State, windows: &mut Windows<'_>, received: &mut [u32; RING]) -> State
    requires { InRing s.audio.received }
    ensures left { P.Hears Steps.stream_in s (memory_of windows.old) received.old result (memory_of windows.new) received.new }
    ensures same { SameWindows windows.old windows.new }
{
    let paced = pace(windows.view(), s.audio.budget);
    let mut next = s;
    next.audio.budget = paced.budget;
    if paced.waits {
        return next;
    }
    take_input(next, windows, received)
}

// The state after a block was built of the sending ring's frames, and silence for those that it lacks.
#[tactic(auto, unfolding(record::specs::Change::taken_from))]
fn after_block(s: State, capacity: usize) -> State
    requires le_credit { 7 ≤ s.audio.credit }
    requires in_sending { P.InSending s.audio.sending capacity }
    ensures { result ≡ P.sent_block s capacity }
{
    let ring = s.audio.sending;
    let count = Audio::FRAMES_PER_BLOCK.min(ring.len);
    let missing = (Audio::FRAMES_PER_BLOCK - count) as u64;
    let start = blocks::place(ring.start, count, capacity);
    let counter = s.audio.counter.wrapping_add(Audio::FRAMES_PER_BLOCK as u16);
    let credit = s.audio.credit - Audio::FRAMES_PER_BLOCK as u64;
    let lacks = s.count(Counter::OutUnderruns, missing);
    let moved = lacks.count(Counter::OutTransfers, 1);
    let mut next = moved.count(Counter::OutFrames, Audio::FRAMES_PER_BLOCK as u64);
    next.audio.counter = counter;
    next.audio.credit = credit;
    next.audio.sending = Ring {
        start,
        len: ring.len - count,
    };
    next
}

// One block into an active descriptor.
fn send_block(s: State, windows: &mut Windows<'_>, sending: &[u32], descriptor: Descriptor) -> State
    requires can_send { P.CanSend s sending.now × (7 ≤ s.audio.credit) }
    requires page_value { D.found Steps.audio_out (memory_of windows.old) ≡ Active descriptor }
    ensures left { P.Outputs Steps.stream_out s (memory_of windows.old) sending.now result (memory_of windows.new) }
    ensures same { SameWindows windows.old windows.new }
{
    let mut block = [0u8; sending::LONGEST];
    let channels = s.audio.channels as usize;
    let capacity = sending.len() / Audio::CHANNELS;
    let ring = s.audio.sending;
    encode(
        &mut block,
        s.audio.counter,
        channels,
        sending,
        ring,
        capacity,
    );
    let n = s.audio.block as usize;
    let ran = dtd::send_one(windows, descriptor, &block[..n], s.port.line);
    after_block(s.after_run(ran), capacity)
}

// A list that has ended is un-primed.
fn unprime(s: State, dynamic: &[u8], sram: &[u8; SRAM], page: &mut [u8; PAGE]) -> State
    requires { is_power (length dynamic.now) ≡ true }
    ensures { P.Unprimes s (shown dynamic.now sram.now page.old) result (shown dynamic.now sram.now page.new) }
{
    let line = dtd::settle(dynamic, sram, page, AUDIO_OUT, 1, false, s.port.line);
    let mut next = s;
    next.port.line = line;
    next
}

// The output step: one block, where a descriptor is primed and seven frames of credit are left; a list that has ended is un-primed.
pub fn stream_out(s: State, windows: &mut Windows<'_>, sending: &[u32]) -> State
    requires { P.CanSend s sending.now }
    ensures left { P.Outputs Steps.stream_out s (memory_of windows.old) sending.now result (memory_of windows.new) }
    ensures same { SameWindows windows.old windows.new }
{
    if s.audio.credit < Audio::FRAMES_PER_BLOCK as u64 {
        return s;
    }
    match dtd::find(windows.view(), 3, false) {
        Found::Unprimed => s,
        Found::Ended => {
            let dynamic = &mut *windows.dynamic;
            unprime(s, dynamic, windows.sram, windows.page)
        }
        Found::Active(descriptor) => send_block(s, windows, sending, descriptor),
    }
}

// The audio stream: what the device sends, then as many frames back.
pub fn stream(
    s: State,
    windows: &mut Windows<'_>,
    received: &mut [u32; RING],
    sending: &[u32],
) -> State
    requires in_ring { InRing s.audio.received }
    requires can_send { P.CanSend s sending.now }
    ensures left { P.Streams Steps.streams s (memory_of windows.old) received.old sending.now result (memory_of windows.new) received.new }
    ensures same { SameWindows windows.old windows.new }
{
    let next = stream_in(s, windows, received);
    stream_out(next, windows, sending)
}
