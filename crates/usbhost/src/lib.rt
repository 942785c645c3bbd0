// The host record, and the calls on it: microframe, MIDI and serial send, frames given and taken, device access.
#![tactic(auto)]

ghost use Rattle.std.specs.Prelude.{◌≡◌, ◌&&◌, ◌++◌, ℕ, ◌+◌, ◌-◌, ◌*◌, ◌≤◌, length, take, drop, replicate, eqb, leb, ltb, IfOk, OnOk};
ghost use Rattle.refusal.specs.Number.{number_of};
ghost use Rattle.usbdev.specs.Access.{fits, read_sized};
ghost use Rattle.usbdev.specs.Answers.{value_of};
ghost use Rattle.midi.specs.Packer.{is_cable};
ghost use Rattle.bounds.specs.Bounds.{MOST, in_bounds, areas_ok, received_ok, sending_ok};
ghost use Rattle.model.specs.Microframe.{streaming as Microframe·streaming};
ghost use Rattle.usbhost.specs.Answers.{sent, sent_by, taken_by, read_by, framed_by, midi_sent_by};
ghost use Rattle.usbhost.specs.Calls.{unless, sending_length, midi_sent, serial_sent, given, given_ring, give_number, taken_frame, take_number, device_read, device_written, written_page};
ghost use Rattle.usbhost.specs.Promises.{bare, unanswered, MidiPromise, SerialPromise, GivePromise, TakePromise, ReadPromise, WritePromise, FramePromise};
ghost use Rattle.usbhost.specs.Frame.{lengths_ok, Long, framed, frame_answer};
ghost use Rattle.bus.specs.Memory.{shown};
ghost use Rattle.record.specs.Record.{no_span, counter_of, in_frames, out_frames};
ghost use Rattle.record.specs.World.{own, lent};
ghost use Rattle.usbhost.specs.Host.{state_of, host_of, host_with, no_settings, new_host, created, created_by};

use bus::{PAGE, SRAM, Windows};
use frames::Areas;
use gptimers::Timers;
use midi::{CABLES, Packer};
use record::{
    Answer, Audio, Control, Counter, DEVICE, Lengths, Phase, Port, QUEUE, RECEIVE, REPLY, RING,
    RING_FRAMES, Ring, SETUP_BYTES, SPANS, Settings, Span, Stage, State,
};
use refusal::Refusal;

// The host record (usbhost.rs 205-288). Its fields are read by calls and written by no one outside.
#[derive(Clone, Copy)]
pub struct Host {
    phase: Phase,
    port: Port,
    audio: Audio,
    control: Control,
    timers: Timers,
    stats: [u64; record::COUNTERS],
    lengths: Lengths,
    packers: [Packer; CABLES],
    settings: Settings,
    setups: [u8; SETUP_BYTES],
    midi: [u8; QUEUE],
    serial: [u8; QUEUE],
    device: [u8; DEVICE],
}

// The record by the parts that a call reads: its state, how many gone spans it has, its packers, and the setups that wait.
#[derive(Clone, Copy)]
pub struct Parts<'a> {
    pub state: State,
    pub spans: usize,
    pub packers: [Packer; CABLES],
    pub setups: &'a [u8; SETUP_BYTES],
}

// A frame taken, or none from an empty ring, and what is next: the record, or its state.
#[derive(Clone, Copy)]
pub struct Taken<T> {
    pub frame: Option<[u32; Host::CHANNELS]>,
    pub next: T,
}

// A microframe: how many MIDI or serial bytes stand in the receive area, the bytes that no window took, the descriptors retired, and the next
// record.
#[derive(Clone, Copy)]
pub struct Framed {
    pub received: usize,
    pub dropped: u64,
    pub retired: u64,
    pub host: Host,
}

// What a send of MIDI bytes leaves.
#[derive(Clone, Copy)]
pub struct MidiSent {
    pub state: State,
    pub packers: [Packer; CABLES],
}

// The frame of twelve words at a place.
fn frame_at(ring: &[u32], at: usize) -> [u32; Host::CHANNELS]
    requires { at + 12 ≤ length ring.now }
    ensures { result ≡ take 12 (drop at ring.now) }
{
    let mut frame = [0; Host::CHANNELS];
    frame.copy_from_slice(&ring[at..at + Host::CHANNELS]);
    frame
}

// The first `spans` gone spans, and behind them spans that hold no time.
fn first_spans(gone: [Span; SPANS], spans: usize) -> [Span; SPANS]
    requires { spans ≤ 16 }
    ensures { result ≡ take spans gone ++ replicate (16 - spans) no_span }
{
    let mut first = [Span::NONE; SPANS];
    first[..spans].copy_from_slice(&gone[..spans]);
    first
}

// Settings that choose nothing.
pub fn no_settings() -> Settings
    ensures { result ≡ no_settings }
{
    Settings {
        device_stack: false,
        midi_in: false,
        cdc: false,
        midi_every: 0,
        sleep: Span::NONE,
        suspend: Span::NONE,
        spans: 0,
        gone: [Span::NONE; SPANS],
    }
}

// An audio stream with no credit and empty rings, in blocks of the usual length.
#[tactic(auto, unfolding(crate::specs::Host::new_host))]
fn new_audio() -> Audio
    ensures { result ≡ (new_host no_settings).audio }
{
    Audio {
        credit: 0,
        counter: 0,
        budget: 0,
        block: Host::BLOCK as u32,
        channels: Host::CHANNELS as u32,
        received: Ring { start: 0, len: 0 },
        sending: Ring { start: 0, len: 0 },
    }
}

// A port at which nothing has happened.
#[tactic(auto, unfolding(crate::specs::Host::new_host))]
fn new_port() -> Port
    ensures { result ≡ (new_host no_settings).port }
{
    Port {
        uf: 0,
        t: 0,
        suspended: false,
        gone: false,
        was_running: false,
        line: false,
    }
}

// The state that a host starts with.
#[tactic(auto, unfolding(crate::specs::Host::new_host))]
pub fn new_state() -> State
    ensures { result ≡ state_of (new_host no_settings) }
{
    let port = new_port();
    let audio = new_audio();
    State {
        phase: Phase::Idle,
        port,
        audio,
        control: Control {
            on: false,
            stage: Stage::Data,
            first: 0,
            second: 0,
            got: 0,
            t0: 0,
        },
        timers: Timers {
            zero: None,
            one: None,
        },
        stats: [0; record::COUNTERS],
        lengths: Lengths {
            setups: 0,
            midi: 0,
            serial: 0,
            device: 0,
            config: 0,
        },
        answer: Answer::NONE,
    }
}

// A host that has done nothing, under settings.
fn new_host(c: Settings) -> Host
    ensures { result ≡ new_host c }
{
    let s = new_state();
    let stats = s.stats;
    Host {
        phase: s.phase,
        port: s.port,
        audio: s.audio,
        control: s.control,
        timers: s.timers,
        stats,
        lengths: s.lengths,
        packers: [Packer::new(); CABLES],
        settings: c,
        setups: [0; 2056],
        midi: [0; QUEUE],
        serial: [0; QUEUE],
        device: [0; DEVICE],
    }
}

impl Parts<'_> {
    // Whether what no area bounds is in its bounds.
    fn bounded(self) -> bool
        ensures { result ≡ in_bounds self.entry.state self.entry.packers self.entry.setups.now }
    {
        bounds::in_bounds(self.state, self.packers, self.setups)
    }

    // Numbers 3 and 5 of a record.
    fn passes(self) -> Result<(), Refusal>
        ensures { number_of result ≡ unless 3 (leb self.entry.spans 16) (unless 5 (in_bounds self.entry.state self.entry.packers self.entry.setups.now) 0) }
    {
        refusal::unless(self.spans <= 16, Refusal::Spans)?;
        refusal::unless(self.bounded(), Refusal::Bounds)
    }

    // Numbers 3, 8 and 5 of a send on a cable.
    fn cable_passes(self, cable: u8) -> Result<(), Refusal>
        ensures { number_of result ≡ unless 3 (leb self.entry.spans 16) (unless 8 (is_cable cable) (unless 5 (in_bounds self.entry.state self.entry.packers self.entry.setups.now) 0)) }
    {
        refusal::unless(self.spans <= 16, Refusal::Spans)?;
        refusal::unless(usize::from(cable) < CABLES, Refusal::Cable)?;
        refusal::unless(self.bounded(), Refusal::Bounds)
    }
}

// Sends MIDI bytes on a cable: their packets go behind those that wait.
pub fn send_midi(
    parts: Parts<'_>,
    cable: u8,
    bytes: &[u8],
    midi: &mut [u8; QUEUE],
) -> Result<MidiSent, Refusal>
    ensures { MidiPromise parts.entry.state parts.entry.spans parts.entry.packers cable bytes.now parts.entry.setups.now midi.old (midi_sent_by parts.entry.state parts.entry.packers result) midi.new }
{
    parts.cable_passes(cable)?;
    let place = usize::from(cable);
    let sent = midi::send(
        parts.packers[place],
        cable,
        bytes,
        midi,
        parts.state.lengths.midi,
    )?;
    let mut fed = parts.packers;
    fed[place] = sent.packer;
    let mut next = parts.state;
    next.lengths.midi = sent.held;
    Ok(MidiSent {
        state: next,
        packers: fed,
    })
}

// Sends serial bytes: they go behind those that wait.
pub fn send_serial(
    parts: Parts<'_>,
    bytes: &[u8],
    serial: &mut [u8; QUEUE],
) -> Result<State, Refusal>
    ensures { SerialPromise parts.entry.state parts.entry.spans parts.entry.packers bytes.now parts.entry.setups.now serial.old (sent_by parts.entry.state result) serial.new }
{
    parts.passes()?;
    let held = parts.state.lengths.serial;
    refusal::unless(bytes.len() <= QUEUE - held, Refusal::Space)?;
    bus::put_all(serial, held, bytes);
    let mut next = parts.state;
    next.lengths.serial = held + bytes.len();
    Ok(next)
}

// Whether so many words can be a sending ring.
#[tactic(auto, unfolding(crate::specs::Calls::sending_length))]
fn sending_length(n: usize) -> bool
    ensures { result ≡ sending_length n }
{
    (Host::FRAMES_PER_BLOCK * Host::CHANNELS <= n) & ((n <= RING) & (n % Host::CHANNELS == 0))
}

// Numbers 2, 3, 5 and 7 of a frame given.
#[tactic(auto, unfolding(crate::specs::Calls::give_number, bounds::specs::Bounds::in_bounds, bounds::specs::Bounds::enumerating_ok, bounds::specs::Bounds::counts_ok))]
fn give_passes(parts: Parts<'_>, frame: &[u32], sending: &[u32]) -> Result<(), Refusal>
    ensures { number_of result ≡ give_number (bare parts.entry.state parts.entry.spans parts.entry.packers parts.entry.setups.now) frame.now sending.now }
{
    let right = sending_length(sending.len());
    refusal::unless(right & (frame.len() == Host::CHANNELS), Refusal::Areas)?;
    parts.passes()?;
    let ring = parts.state.audio.sending;
    let capacity = sending.len() / Host::CHANNELS;
    refusal::unless(bounds::ring_ok(ring, capacity), Refusal::Bounds)?;
    refusal::unless(ring.len < capacity, Refusal::Space)
}

// Gives a frame to the sending ring: it goes behind the newest.
pub fn give_frame(parts: Parts<'_>, frame: &[u32], sending: &mut [u32]) -> Result<State, Refusal>
    ensures { GivePromise parts.entry.state parts.entry.spans parts.entry.packers frame.now parts.entry.setups.now sending.old (sent_by parts.entry.state result) sending.new }
{
    give_passes(parts, frame, &*sending)?;
    let capacity = sending.len() / Host::CHANNELS;
    let start = parts.state.audio.sending.start;
    let held = parts.state.audio.sending.len;
    let at = (start + held) % capacity * Host::CHANNELS;
    bus::put_all(sending, at, frame);
    let mut next = parts.state;
    next.audio.sending.len = held + 1;
    Ok(next)
}

// Numbers 2, 3 and 5 of a frame taken.
#[tactic(auto, unfolding(crate::specs::Calls::take_number, bounds::specs::Bounds::in_bounds, bounds::specs::Bounds::enumerating_ok, bounds::specs::Bounds::counts_ok))]
fn take_passes(parts: Parts<'_>, received: &[u32]) -> Result<(), Refusal>
    ensures { number_of result ≡ take_number (bare parts.entry.state parts.entry.spans parts.entry.packers parts.entry.setups.now) received.now }
{
    refusal::unless(received.len() == RING, Refusal::Areas)?;
    parts.passes()?;
    let inside = bounds::ring_ok(parts.state.audio.received, RING_FRAMES);
    refusal::unless(inside, Refusal::Bounds)
}

// The lengths of the areas that a microframe is lent.
#[derive(Clone, Copy)]
struct AreaLengths {
    reply: usize,
    config: usize,
    receive: usize,
    cables: usize,
    received: usize,
    sending: usize,
}

impl AreaLengths {
    // Whether each is as long as it must be.
    #[tactic(auto, unfolding(crate::specs::Frame::lengths_ok))]
    fn long(self) -> bool
        ensures { result ≡ lengths_ok self.reply self.config self.receive self.cables self.received self.sending }
    {
        let ring = sending_length(self.sending);
        let rings = (self.received == RING) & ring;
        (REPLY <= self.reply)
            & ((REPLY <= self.config)
                & ((RECEIVE <= self.receive) & ((RECEIVE <= self.cables) & rings)))
    }

    // Whether a record is in its bounds, with areas of these lengths.
    fn bound(self, parts: Parts<'_>) -> bool
        ensures { result ≡ (in_bounds parts.entry.state parts.entry.packers parts.entry.setups.now && (areas_ok parts.entry.state self.reply self.config && (received_ok parts.entry.state && sending_ok parts.entry.state self.sending))) }
    {
        let areas = bounds::areas_ok(parts.state, self.reply, self.config);
        let heard = bounds::ring_ok(parts.state.audio.received, RING_FRAMES);
        let sent = bounds::ring_ok(parts.state.audio.sending, self.sending / Host::CHANNELS);
        parts.bounded() & (areas & (heard & sent))
    }
}

// Numbers 2, 3, 5 and 6 of a microframe: the lengths of the areas, and the record.
#[tactic(auto, using(crate::proofs::Frame::lengths_long))]
fn microframe_passes(lengths: AreaLengths, parts: Parts<'_>) -> Result<(), Refusal>
    ensures number { number_of result ≡ unless 2 (lengths_ok lengths.reply lengths.config lengths.receive lengths.cables lengths.received lengths.sending) (unless 3 (leb parts.entry.spans 16) (unless 5 (in_bounds parts.entry.state parts.entry.packers parts.entry.setups.now && (areas_ok parts.entry.state lengths.reply lengths.config && (received_ok parts.entry.state && sending_ok parts.entry.state lengths.sending))) (unless 6 (ltb parts.entry.state.port.uf MOST) 0))) }
    ensures long { OnOk result (Long lengths.reply lengths.config lengths.receive lengths.cables lengths.received lengths.sending) }
{
    refusal::unless(lengths.long(), Refusal::Areas)?;
    refusal::unless(parts.spans <= 16, Refusal::Spans)?;
    refusal::unless(lengths.bound(parts), Refusal::Bounds)?;
    refusal::unless(
        parts.state.port.uf < 1_099_511_627_776,
        Refusal::Microframes,
    )
}

// The state with nothing received, dropped or retired yet.
fn unanswered(s: State) -> State
    ensures { result ≡ unanswered s }
{
    let mut next = s;
    next.answer = Answer::NONE;
    next
}

// One microframe of 125 microseconds at a time; the answer is in the state, zeros where it is refused.
pub fn run_microframe(
    s: &mut State,
    c: Settings,
    packers: [Packer; CABLES],
    setups: &mut [u8; SETUP_BYTES],
    midi: &mut [u8; QUEUE],
    serial: &mut [u8; QUEUE],
    device: &mut [u8; DEVICE],
    dynamic: &mut [u8],
    sram: &mut [u8],
    page: &mut [u8],
    reply: &mut [u8],
    config: &mut [u8],
    receive: &mut [u8],
    cables: &mut [u8],
    received: &mut [u32],
    sending: &[u32],
    time: u64,
) -> Result<(), Refusal>
    ensures { FramePromise time (host_of s.old c packers (own setups.old midi.old serial.old device.old)) (lent (shown dynamic.old sram.old page.old) reply.old config.old receive.old cables.old received.old sending.now) (sent (number_of result) s.new) (own setups.new midi.new serial.new device.new) (lent (shown dynamic.new sram.new page.new) reply.new config.new receive.new cables.new received.new sending.now) }
{
    let fresh = unanswered(*s);
    *s = fresh;
    bus::accept(&*dynamic, &*sram, &*page)?;
    let lengths = AreaLengths {
        reply: reply.len(),
        config: config.len(),
        receive: receive.len(),
        cables: cables.len(),
        received: received.len(),
        sending: sending.len(),
    };
    let parts = Parts {
        state: fresh,
        spans: c.spans,
        packers,
        setups: &*setups,
    };
    microframe_passes(lengths, parts)?;
    let sram = sram.as_mut_array::<SRAM>().unwrap();
    let page = page.as_mut_array::<PAGE>().unwrap();
    let received = received.as_mut_array::<RING>().unwrap();
    let mut windows = Windows {
        dynamic,
        sram,
        page,
    };
    let mut areas = Areas {
        setups,
        midi,
        serial,
        device,
        reply,
        config,
        receive,
        cables,
        received,
        sending,
    };
    *s = frames::microframe(fresh, c, &mut windows, &mut areas, time);
    Ok(())
}

// Takes the oldest frame from the received ring, or finds it empty.
pub fn take_frame(parts: Parts<'_>, received: &[u32]) -> Result<Taken<State>, Refusal>
    ensures { TakePromise parts.entry.state parts.entry.spans parts.entry.packers parts.entry.setups.now received.now (taken_by parts.entry.state result) }
{
    take_passes(parts, received)?;
    let start = parts.state.audio.received.start;
    let held = parts.state.audio.received.len;
    if held == 0 {
        return Ok(Taken {
            frame: None,
            next: parts.state,
        });
    }
    let frame = frame_at(received, start * Host::CHANNELS);
    let mut next = parts.state;
    next.audio.received = Ring {
        start: (start + 1) % RING_FRAMES,
        len: held - 1,
    };
    Ok(Taken {
        frame: Some(frame),
        next,
    })
}

// What the device reads on the register page.
pub fn read_device(parts: Parts<'_>, page: &[u8], off: u32, size: u32) -> Result<u32, Refusal>
    ensures { ReadPromise parts.entry.state parts.entry.spans parts.entry.packers parts.entry.setups.now page.now off size (value_of result) }
{
    refusal::unless(page.len() == PAGE, Refusal::Windows)?;
    refusal::unless(parts.spans <= 16, Refusal::Spans)?;
    let value = usbdev::read(page, off, size)?;
    refusal::unless(parts.bounded(), Refusal::Bounds)?;
    Ok(value)
}

// What the device writes on the register page.
pub fn write_device(
    parts: Parts<'_>,
    page: &mut [u8],
    off: u32,
    size: u32,
    v: u32,
) -> Result<State, Refusal>
    ensures { WritePromise parts.entry.state parts.entry.spans parts.entry.packers parts.entry.setups.now page.old off size v (sent_by parts.entry.state result) page.new }
{
    read_device(parts, &*page, off, size)?;
    let line = usbdev::write(page, off, size, v, parts.state.port.line)?;
    let mut next = parts.state;
    next.port.line = line;
    Ok(next)
}

impl Host {
    pub const FRAMES_PER_BLOCK: usize = Audio::FRAMES_PER_BLOCK;

    pub const CHANNELS: usize = Audio::CHANNELS;

    pub const BLOCK: usize = Audio::BLOCK;

    // A host under settings of at most 16 gone spans.
    #[tactic(auto, unfolding(crate::specs::Host::created, crate::specs::Host::settled))]
    pub fn new(c: Settings) -> Result<Host, Refusal>
        ensures { created_by result ≡ created c }
    {
        refusal::unless(c.spans <= SPANS, Refusal::Spans)?;
        let gone = first_spans(c.gone, c.spans);
        Ok(new_host(Settings { gone, ..c }))
    }

    // The counters, each at its place.
    pub fn stats(self) -> [u64; record::COUNTERS]
        ensures { result ≡ self.stats }
    {
        self.stats
    }

    // Audio frames received.
    pub fn in_frames(self) -> u64
        ensures { result ≡ counter_of in_frames self.stats }
    {
        self.stats[Counter::InFrames as usize]
    }

    // Audio frames sent.
    pub fn out_frames(self) -> u64
        ensures { result ≡ counter_of out_frames self.stats }
    {
        self.stats[Counter::OutFrames as usize]
    }

    // Credit of the audio stream.
    pub fn credit(self) -> u64
        ensures { result ≡ self.audio.credit }
    {
        self.audio.credit
    }

    pub fn streaming(self) -> bool
        ensures { result ≡ Microframe·streaming self.phase }
    {
        matches!(self.phase, Phase::Stream)
    }

    // The state by its parts.
    pub fn state(self) -> State
        ensures { result ≡ state_of self }
    {
        let stats = self.stats;
        State {
            phase: self.phase,
            port: self.port,
            audio: self.audio,
            control: self.control,
            timers: self.timers,
            stats,
            lengths: self.lengths,
            answer: Answer::NONE,
        }
    }

    // The record with another state.
    fn with_state(self, s: State) -> Host
        ensures { result ≡ host_with self s }
    {
        let stats = s.stats;
        Host {
            phase: s.phase,
            port: s.port,
            audio: s.audio,
            control: s.control,
            timers: s.timers,
            stats,
            lengths: s.lengths,
            ..self
        }
    }

    // One microframe of 125 microseconds at a time.
    pub fn microframe(
        mut self,
        time: u64,
        dynamic: &mut [u8],
        sram: &mut [u8],
        page: &mut [u8],
        reply: &mut [u8],
        config: &mut [u8],
        receive: &mut [u8],
        cables: &mut [u8],
        received: &mut [u32],
        sending: &[u32],
    ) -> Result<Framed, Refusal>
        ensures { (framed_by self result ≡ frame_answer time self (lent (shown dynamic.old sram.old page.old) reply.old config.old receive.old cables.old received.old sending.now)) × (lent (shown dynamic.new sram.new page.new) reply.new config.new receive.new cables.new received.new sending.now ≡ (framed time self (lent (shown dynamic.old sram.old page.old) reply.old config.old receive.old cables.old received.old sending.now)).lent) }
    {
        let mut state = self.state();
        run_microframe(
            &mut state,
            self.settings,
            self.packers,
            &mut self.setups,
            &mut self.midi,
            &mut self.serial,
            &mut self.device,
            dynamic,
            sram,
            page,
            reply,
            config,
            receive,
            cables,
            received,
            sending,
            time,
        )?;
        let answer = state.answer;
        Ok(Framed {
            received: answer.received,
            dropped: answer.dropped,
            retired: answer.retired,
            host: self.with_state(state),
        })
    }

    // Sends MIDI bytes to the device on a cable.
    pub fn midi_send(mut self, cable: u8, bytes: &[u8]) -> Result<Host, Refusal>
        ensures { sent_by self result ≡ midi_sent self cable bytes.now }
    {
        let parts = Parts {
            state: self.state(),
            spans: self.settings.spans,
            packers: self.packers,
            setups: &self.setups,
        };
        let sent = send_midi(parts, cable, bytes, &mut self.midi)?;
        let packers = sent.packers;
        self.packers = packers;
        Ok(self.with_state(sent.state))
    }

    // Sends serial bytes to the device.
    pub fn serial_send(mut self, bytes: &[u8]) -> Result<Host, Refusal>
        ensures { sent_by self result ≡ serial_sent self bytes.now }
    {
        let parts = Parts {
            state: self.state(),
            spans: self.settings.spans,
            packers: self.packers,
            setups: &self.setups,
        };
        let state = send_serial(parts, bytes, &mut self.serial)?;
        Ok(self.with_state(state))
    }

    // Gives a frame to the device: it waits in the sending ring.
    pub fn frame_give(self, frame: &[u32], sending: &mut [u32]) -> Result<Host, Refusal>
        ensures { (sent_by self result ≡ given self frame.now sending.old) × (sending.new ≡ given_ring self frame.now sending.old) }
    {
        let parts = Parts {
            state: self.state(),
            spans: self.settings.spans,
            packers: self.packers,
            setups: &self.setups,
        };
        let state = give_frame(parts, frame, sending)?;
        Ok(self.with_state(state))
    }

    // Takes the oldest frame that came from the device.
    pub fn frame_take(self, received: &[u32]) -> Result<Taken<Host>, Refusal>
        ensures { taken_by self result ≡ taken_frame self received.now }
    {
        let parts = Parts {
            state: self.state(),
            spans: self.settings.spans,
            packers: self.packers,
            setups: &self.setups,
        };
        let taken = take_frame(parts, received)?;
        Ok(Taken {
            frame: taken.frame,
            next: self.with_state(taken.next),
        })
    }

    // What the device reads on the register page.
    pub fn device_read(self, page: &[u8], off: u32, size: u32) -> Result<u32, Refusal>
        ensures { read_by self result ≡ device_read self page.now off size }
    {
        let parts = Parts {
            state: self.state(),
            spans: self.settings.spans,
            packers: self.packers,
            setups: &self.setups,
        };
        read_device(parts, page, off, size)
    }

    // What the device writes on the register page.
    pub fn device_write(self, page: &mut [u8], off: u32, size: u32, v: u32) -> Result<Host, Refusal>
        ensures { (sent_by self result ≡ device_written self page.old off size v) × (page.new ≡ written_page self page.old off size v) }
    {
        let parts = Parts {
            state: self.state(),
            spans: self.settings.spans,
            packers: self.packers,
            setups: &self.setups,
        };
        let state = write_device(parts, page, off, size, v)?;
        Ok(self.with_state(state))
    }
}
