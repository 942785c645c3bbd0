// The host record by its parts: what a chain of steps hands on by value. Queues and areas are lent beside it.
#![tactic(auto)]

ghost use Rattle.std.specs.Prelude.{◌≡◌, ◌+◌, ◌-◌, ◌*◌, ◌/◌, ◌<◌, ◌≤◌, length};
ghost use Rattle.std.proofs.lemmas.List.Edits.{sets};
ghost use Rattle.record.specs.Record as R;
ghost use Rattle.record.specs.Sizes as Sizes;
ghost use Rattle.record.specs.Change.{drained};
ghost use Rattle.record.specs.Did.{entered, after_run};
ghost use Rattle.record.specs.Setups.{little, little_bytes, setup_bytes};

use dtd::Ran;
use gptimers::Timers;

// Setups that wait at most, and their bytes.
pub const SETUPS: usize = 257;

pub const SETUP_BYTES: usize = 8 * SETUPS;

// Bytes of the MIDI and of the serial queue, and of the device descriptor.
pub const QUEUE: usize = midi::QUEUE;

pub const DEVICE: usize = 64;

// The longest reply, and so the least reply and configuration area; the least receive area, and area of cables.
pub const REPLY: usize = 65_535;

pub const RECEIVE: usize = 196_608;

// Frames that the received ring holds at most, and its words.
pub const RING_FRAMES: usize = 48_000;

pub const RING: usize = RING_FRAMES * Audio::CHANNELS;

// The first words of the setups that are made: get the device or the configuration descriptor, set address 7, configuration 1, an interface.
pub const GET_DEVICE: u32 = 0x0100_0680;

pub const GET_CONFIGURATION: u32 = 0x0200_0680;

pub const SET_ADDRESS: u32 = 0x0007_0500;

pub const SET_CONFIGURATION: u32 = 0x0001_0900;

pub const SET_INTERFACE: u32 = 0x0B01;

// What the host waits for (usbhost.rs 177-190).
#[derive(Clone, Copy, Debug, PartialEq, Eq)]
pub enum Phase {
    Idle,
    Vbus,
    Reset,
    Enumerate,
    Stream,
}

// A running request waits for its data stage's descriptor, or for its status stage's (usbhost.rs 192-198).
#[derive(Clone, Copy, Debug, PartialEq, Eq)]
pub enum Stage {
    Data,
    Status,
}

// A span of time: it holds its start and not its end, so (0, 0) holds none.
#[derive(Clone, Copy, Debug, PartialEq, Eq)]
pub struct Span {
    pub from: u64,
    pub to: u64,
}

impl Span {
    // The span that holds no time.
    pub const NONE: Span = Span { from: 0, to: 0 };
}

// Gone spans that settings have room for.
pub const SPANS: usize = 16;

// What is chosen at `new` and never changes: of the gone spans the first `spans` are given.
#[derive(Clone, Copy, Debug, PartialEq, Eq)]
pub struct Settings {
    pub device_stack: bool,
    pub midi_in: bool,
    pub cdc: bool,
    pub midi_every: u64,
    pub sleep: Span,
    pub suspend: Span,
    pub spans: usize,
    pub gone: [Span; SPANS],
}

// The port: microframes since `new`, the phase's start, suspended, gone, RS seen set (`was_running`), and the interrupt line's flag.
#[derive(Clone, Copy, Debug, PartialEq, Eq)]
pub struct Port {
    pub uf: u64,
    pub t: u64,
    pub suspended: bool,
    pub gone: bool,
    pub was_running: bool,
    pub line: bool,
}

// A ring of frames: the place of its oldest one, and how many it holds.
#[derive(Clone, Copy, Debug, PartialEq, Eq)]
pub struct Ring {
    pub start: usize,
    pub len: usize,
}

// The audio stream: `credit`, `out_counter`, `in_budget`, `out_block`, `out_channels`, and its two rings.
#[derive(Clone, Copy, Debug, PartialEq, Eq)]
pub struct Audio {
    pub credit: u64,
    pub counter: u16,
    pub budget: u64,
    pub block: u32,
    pub channels: u32,
    pub received: Ring,
    pub sending: Ring,
}

// Frames of a block, words of a frame, and bytes of a block: a header of 32, and the frames (usbhost.rs 54-56).
impl Audio {
    pub const FRAMES_PER_BLOCK: usize = 7;

    pub const CHANNELS: usize = 12;

    pub const BLOCK: usize = 32 + Audio::FRAMES_PER_BLOCK * Audio::CHANNELS * 4;

    // The channels of a block of so many bytes, rounded down.
    pub fn channels_in(block: u32) -> u32
        requires { 32 ≤ block }
        ensures { result ≡ (block - 32) / 28 }
    {
        (block - 32) / (4 * Audio::FRAMES_PER_BLOCK as u32)
    }
}

// The request that runs, if one does: its setup as the two little-endian words that are posted, its reply's length, its start.
#[derive(Clone, Copy, Debug, PartialEq, Eq)]
pub struct Control {
    pub on: bool,
    pub stage: Stage,
    pub first: u32,
    pub second: u32,
    pub got: usize,
    pub t0: u64,
}

// The counters (usbhost.rs `UsbStats`), in the order of the array of them.
#[derive(Clone, Copy, Debug, PartialEq, Eq)]
pub enum Counter {
    Microframes,
    InTransfers,
    OutTransfers,
    InFrames,
    OutFrames,
    BadBlocks,
    MidiDtds,
    MidiAsleep,
    OutUnderruns,
    MidiPacketsOut,
    VendorInBytes,
    Restarts,
    Enumerations,
}

// How many there are.
pub const COUNTERS: usize = 13;

impl Counter {
    // Its place in the array.
    pub fn place(self) -> usize
        ensures value { result ≡ R.place self }
        ensures inside { result < R.COUNTERS }
    {
        self as usize
    }
}

// How much is in use: setups waiting, bytes of the MIDI and the serial queue, of the device descriptor and of the configuration.
#[derive(Clone, Copy, Debug, PartialEq, Eq)]
pub struct Lengths {
    pub setups: usize,
    pub midi: usize,
    pub serial: usize,
    pub device: usize,
    pub config: usize,
}

// What a microframe answers: bytes in the receive area, bytes that no window took, and descriptors retired.
#[derive(Clone, Copy, Debug, PartialEq, Eq)]
pub struct Answer {
    pub received: usize,
    pub dropped: u64,
    pub retired: u64,
}

impl Answer {
    // That of a microframe in which nothing came, was lost or was retired.
    pub const NONE: Answer = Answer {
        received: 0,
        dropped: 0,
        retired: 0,
    };
}

// All of these.
#[derive(Clone, Copy, Debug, PartialEq, Eq)]
pub struct State {
    pub phase: Phase,
    pub port: Port,
    pub audio: Audio,
    pub control: Control,
    pub timers: Timers,
    pub stats: [u64; COUNTERS],
    pub lengths: Lengths,
    pub answer: Answer,
}

impl Control {
    // The request in another stage.
    pub fn with_stage(self, stage: Stage) -> Control
        ensures { result ≡ R.with_stage self stage }
    {
        Control { stage, ..self }
    }
}

impl State {
    // The state in another phase.
    pub fn with_phase(self, phase: Phase) -> State
        ensures { result ≡ R.with_phase self phase }
    {
        State { phase, ..self }
    }

    // The state in a phase that starts in this microframe.
    pub fn enter(self, phase: Phase) -> State
        ensures { result ≡ entered self phase }
    {
        let port = Port {
            t: self.port.uf,
            ..self.port
        };
        State {
            phase,
            port,
            ..self
        }
    }

    // A counter.
    pub fn counter(self, c: Counter) -> u64
        ensures { result ≡ R.counter_of c self.stats }
    {
        self.stats[c.place()]
    }

    // The state with another value of a counter.
    pub fn with_counter(mut self, c: Counter, x: u64) -> State
        ensures { result ≡ R.with_stats self (R.with_counter_at (R.place c) x self.stats) }
    {
        self.stats[c.place()] = x;
        self
    }

    // The state with a counter gone up by n, modulo 2^64.
    pub fn count(self, c: Counter, n: u64) -> State
        ensures { result ≡ R.with_stats self (R.counted c n self.stats) }
    {
        self.with_counter(c, self.counter(c).wrapping_add(n))
    }

    // The state after a run over descriptors: the line's flag, the bytes that no window took, and how many descriptors it retired.
    pub fn after_run(self, ran: Ran) -> State
        ensures { result ≡ after_run self ran }
    {
        let port = Port {
            line: ran.line,
            ..self.port
        };
        let answer = Answer {
            dropped: self.answer.dropped.wrapping_add(u64::from(ran.dropped)),
            retired: self.answer.retired.wrapping_add(u64::from(ran.retired)),
            ..self.answer
        };
        State {
            port,
            answer,
            ..self
        }
    }
}

// Stores a little-endian word from index `at` on.
fn put_word(setups: &mut [u8; SETUP_BYTES], at: usize, v: u32)
    requires { at + 4 ≤ Sizes.SETUP_BYTES }
    ensures { setups.new ≡ sets setups.old at (little_bytes v) }
{
    setups[at..at + 4].copy_from_slice(&v.to_le_bytes());
}

// The little-endian word of the setup queue from index `at` on.
pub fn word_from(setups: &[u8; SETUP_BYTES], at: usize) -> u32
    requires { at + 4 ≤ Sizes.SETUP_BYTES }
    ensures { result ≡ little setups.now at }
{
    u32::from_le_bytes([setups[at], setups[at + 1], setups[at + 2], setups[at + 3]])
}

// Stores a setup, by its two words, behind the first `count`.
pub fn put_setup(setups: &mut [u8; SETUP_BYTES], count: usize, first: u32, second: u32)
    requires { count < Sizes.SETUPS }
    ensures { setups.new ≡ sets setups.old (8 * count) (setup_bytes first second) }
{
    put_word(setups, 8 * count, first);
    put_word(setups, 8 * count + 4, second);
}

// A queue of `len` bytes without its first n: the others move up.
pub fn drain(queue: &mut [u8], len: usize, n: usize)
    requires { (n ≤ len) × (len ≤ length queue.old) }
    ensures { queue.new ≡ drained queue.old len n }
{
    queue.copy_within(n..len, 0);
}
