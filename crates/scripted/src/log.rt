// The lines that show the host record: what a microframe logs, and an observation.
ghost use Rattle.stdio.specs.Behind.{Behind};

use crate::areas::{Areas, first};
use crate::run::Run;
use midi::Packer;
use record::{Answer, Audio, Control, Ring, State};
use script::{answers, hash};
use shown::{held_hash, show_packer, show_timer};
use stdio::Output;

// The counters that the Rust has, which the log shows; a record may have more behind them.
const STATS: usize = 13;

// Bytes that came in: how many, and their hash.
#[derive(Clone, Copy)]
pub struct Bytes {
    pub count: u64,
    pub hash: u64,
}

// Those of MIDI and those of serial.
#[derive(Clone, Copy)]
pub struct Came {
    pub midi: Bytes,
    pub serial: Bytes,
}

impl Bytes {
    const NONE: Bytes = Bytes {
        count: 0,
        hash: hash::START,
    };

    // With the first `count` bytes of a buffer behind them, or all of it.
    fn behind(self, buffer: &[u8], count: usize) -> Bytes {
        Bytes {
            count: self.count.wrapping_add(count as u64),
            hash: mixed_bytes(self.hash, first(buffer, count)),
        }
    }
}

impl Came {
    // Nothing came yet.
    pub const NOTHING: Came = Came {
        midi: Bytes::NONE,
        serial: Bytes::NONE,
    };

    // With the first `count` bytes of the receive area, which are serial ones where `cdc` is set.
    pub fn behind(self, cdc: bool, receive: &[u8], count: usize) -> Came {
        if cdc {
            return Came {
                serial: self.serial.behind(receive, count),
                ..self
            };
        }
        Came {
            midi: self.midi.behind(receive, count),
            ..self
        }
    }
}

// The hash of the first bytes of a buffer, or of all of it.
fn first_hash(buffer: &[u8], count: usize) -> u64 {
    hash::hash_all(first(buffer, count))
}

// The hash `h` with more bytes behind it.
fn mixed_bytes(h: u64, bytes: &[u8]) -> u64 {
    bytes.iter().fold(h, |all, b| hash::mixed(all, *b))
}

// The hash `h` with words behind it, of each the high byte first.
pub fn mixed_words(h: u64, words: &[u32]) -> u64 {
    words
        .iter()
        .fold(h, |all, word| mixed_bytes(all, &word.to_be_bytes()))
}

// The hash of a ring's frames, oldest first.
fn ring_hash(words: &[u32], ring: Ring) -> u64 {
    let older = words.chunks_exact(12).skip(ring.start);
    let newer = words.chunks_exact(12).take(ring.start);
    let mut all = hash::START;
    for frame in older.chain(newer).take(ring.len) {
        all = mixed_words(all, frame);
    }
    all
}

// Fields 1 to 6.
fn show_phase(state: &State, out: &mut Output)
    ensures { Behind 102 out.old out.new }
{
    answers::field(out, state.phase as u64);
    answers::field(out, state.port.uf);
    answers::field(out, state.port.t);
    answers::field(out, state.audio.credit);
    answers::field(out, state.audio.budget);
    answers::field(out, u64::from(state.audio.counter));
}

// The four bytes of a word, low byte first.
fn show_word(word: u32, out: &mut Output)
    ensures { Behind 8 out.old out.new }
{
    for b in word.to_le_bytes() {
        answers::pair(out, b);
    }
}

// Fields 7 to 11.
fn show_control(control: Control, out: &mut Output)
    ensures { Behind 85 out.old out.new }
{
    if !control.on {
        out.append(b" 0 0 0 0 0000000000000000");
        return;
    }
    answers::field(out, 1);
    answers::field(out, control.stage as u64);
    answers::field(out, control.t0);
    answers::field(out, control.got as u64);
    out.put(b' ');
    show_word(control.first, out);
    show_word(control.second, out);
}

// Fields 12 to 16.
fn show_held(state: &State, out: &mut Output)
    ensures { Behind 85 out.old out.new }
{
    answers::field(out, state.lengths.setups as u64);
    answers::field(out, state.lengths.midi as u64);
    answers::field(out, state.lengths.serial as u64);
    answers::field(out, state.audio.received.len as u64);
    answers::field(out, state.audio.sending.len as u64);
}

// Fields 17 to 23.
fn show_port(state: &State, out: &mut Output)
    ensures { Behind 44 out.old out.new }
{
    answers::flag(out, state.port.suspended);
    answers::flag(out, state.port.gone);
    answers::flag(out, state.port.was_running);
    show_timer(state.timers.zero, out);
    show_timer(state.timers.one, out);
}

// Fields 24 to 28.
fn show_block(audio: Audio, packer: Packer, out: &mut Output)
    ensures { Behind 70 out.old out.new }
{
    answers::field(out, u64::from(audio.block));
    answers::field(out, u64::from(audio.channels));
    show_packer(packer, out);
}

// Fields 44 to 48.
fn show_came(line: bool, came: Came, out: &mut Output)
    ensures { Behind 70 out.old out.new }
{
    answers::flag(out, line);
    for bytes in [came.midi, came.serial] {
        answers::field(out, bytes.count);
        answers::field(out, bytes.hash);
    }
}

// Fields 1 to 48; of these 31 to 43 are the counters in their order.
pub fn show_record(run: &Run, came: Came, out: &mut Output)
    ensures { Behind 711 out.old out.new }
{
    let state = &run.state;
    show_phase(state, out);
    show_control(state.control, out);
    show_held(state, out);
    show_port(state, out);
    show_block(state.audio, run.packers[0], out);
    answers::field(out, state.lengths.device as u64);
    answers::field(out, state.lengths.config as u64);
    for n in &state.stats[..STATS] {
        answers::field(out, *n);
    }
    show_came(state.port.line, came, out);
}

// Fields 49 to 53.
pub fn show_areas(run: &Run, areas: &Areas, out: &mut Output)
    ensures { Behind 85 out.old out.new }
{
    let lengths = run.state.lengths;
    answers::field(out, first_hash(&areas.dynamic, run.length));
    answers::field(out, hash::hash_all(&areas.sram));
    answers::field(out, hash::hash_all(&areas.page));
    answers::field(out, first_hash(&areas.device, lengths.device));
    answers::field(out, first_hash(&areas.config, lengths.config));
}

// Fields 54 to 56.
fn show_queues(state: &State, areas: &Areas, out: &mut Output)
    ensures { Behind 51 out.old out.new }
{
    let lengths = state.lengths;
    let setups = lengths.setups.min(record::SETUPS);
    answers::field(out, first_hash(&areas.setups, 8 * setups));
    answers::field(out, first_hash(&areas.midi, lengths.midi));
    answers::field(out, first_hash(&areas.serial, lengths.serial));
}

// The hash of a running request's reply so far.
fn reply_hash(control: Control, reply: &[u8]) -> u64 {
    if control.on {
        first_hash(reply, control.got)
    } else {
        hash::START
    }
}

// Fields 57 to 60.
fn show_rings(run: &Run, areas: &Areas, out: &mut Output)
    ensures { Behind 68 out.old out.new }
{
    let audio = run.state.audio;
    let sending = first(&areas.sending, run.sending_words());
    answers::field(out, ring_hash(&areas.received, audio.received));
    answers::field(out, ring_hash(sending, audio.sending));
    answers::field(out, reply_hash(run.state.control, &areas.reply));
    answers::field(out, held_hash(run.packers[0]));
}

// `o`: everything that can be seen of a run.
pub fn observe(run: &Run, areas: &Areas, out: &mut Output) {
    out.put(b'o');
    show_record(run, run.all, out);
    show_areas(run, areas, out);
    show_queues(&run.state, areas, out);
    show_rings(run, areas, out);
    out.put(b'\n');
}

// `x 1`: the descriptors that the last microframe retired, and the bytes that it dropped.
pub fn show_counts(answer: Answer, out: &mut Output)
    ensures { Behind 38 out.old out.new }
{
    out.append(b"x 1");
    answers::field(out, answer.retired);
    answers::field(out, answer.dropped);
    out.put(b'\n');
}

// `x 2`: the cables of the MIDI bytes that the last microframe received, how many and their hash, and the packers of all; serial bytes have none.
pub fn show_cables(run: &Run, areas: &Areas, out: &mut Output)
    ensures { Behind 614 out.old out.new }
{
    let count = if run.settings.cdc {
        0
    } else {
        run.state.answer.received
    };
    out.append(b"x 2");
    answers::field(out, count as u64);
    answers::field(out, first_hash(&areas.cables, count));
    for packer in run.packers {
        show_packer(packer, out);
    }
    out.put(b'\n');
}
