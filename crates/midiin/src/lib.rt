// MIDI input of a configured host: the packets of its descriptors, decoded into the receive area and the area of their cables.
#![tactic(auto)]

ghost use Rattle.std.specs.Prelude.{◌≡◌, ℕ, ◌+◌, ◌*◌, ◌/◌, ◌<◌, ◌≤◌, true, false, [], ◌∷◌, length};
ghost use Rattle.bus.specs.Windows.{viewed, memory_of, SameWindows};
ghost use Rattle.transfer.specs.Transfer as T;
ghost use Rattle.dtd.specs.Dtd as D;
ghost use Rattle.dtd.specs.declared.Found.TheVariants.{Active};
ghost use Rattle.record.specs.Did as R;
ghost use Rattle.model.specs.Streams as M;
ghost use Rattle.midiin.specs.Promises as P;

use bus::{PAGE, View, Windows, put_at, word_at};
use dtd::{Descriptor, Ran};
use record::{Counter, State};
use usbdev::{EPNAK, EPSR};

// The bit of MIDI input, endpoint 1, in EPSR.
const MIDI_IN: u32 = 0x2_0000;

// Bytes of a run that are decoded at a time: whole packets.
const PIECE: usize = 512;

// One packet: as many of its bytes as its code says go to `receive` from `at` on, and its cable beside each; the place behind them.
#[tactic(auto, using(model::proofs::Decoded::count_few), unfolding(model::specs::Streams::each_packet))]
fn decode_packet(
    receive: &mut [u8],
    cables: &mut [u8],
    at: usize,
    header: u8,
    x: u8,
    y: u8,
    z: u8,
) -> usize
    requires { P.Room at 3 receive.old cables.old }
    ensures { P.Decodes 1 (header ∷ x ∷ y ∷ z ∷ []) receive.old receive.new cables.old cables.new at result }
{
    let n = midi::byte_count(header % 16);
    if n == 0 {
        return at;
    }
    let cable = header / 16;
    receive[at] = x;
    cables[at] = cable;
    if n == 1 {
        return at + 1;
    }
    receive[at + 1] = y;
    cables[at + 1] = cable;
    if n == 2 {
        return at + 2;
    }
    receive[at + 2] = z;
    cables[at + 2] = cable;
    at + 3
}

// The whole packets of a piece of a run.
fn decode_piece(piece: &[u8], receive: &mut [u8], cables: &mut [u8], start: usize) -> usize
    requires { P.Room start (3 * (length piece.now / 4)) receive.old cables.old }
    ensures { P.Decodes (length piece.now / 4) piece.now receive.old receive.new cables.old cables.new start result }
{
    let mut at = start;
    let (packets, _) = piece.as_chunks::<4>();
    for &[header, x, y, z] in packets {
        at = decode_packet(receive, cables, at, header, x, y, z);
    }
    at
}

// The bytes of a run from byte `from` on that fill `piece`.
fn decode_some(
    view: View<'_>,
    pointers: &[u32; 9],
    from: usize,
    piece: &mut [u8],
    receive: &mut [u8],
    cables: &mut [u8],
    at: usize,
) -> usize
    requires piece_bound { from + length piece.old ≤ 32767 }
    requires piece_in_bounds { P.Room at (3 * (length piece.old / 4)) receive.old cables.old }
    ensures { P.Decodes (length piece.old / 4) (T.bytes_from (viewed view.entry) pointers.now from (length piece.old)) receive.old receive.new cables.old cables.new at result }
{
    transfer::copy_part(view, pointers, from, piece);
    decode_piece(&*piece, receive, cables, at)
}

// The packets of a run of `total` bytes, piece by piece; less than four bytes at the end are no packet.
fn decode_run(
    view: View<'_>,
    pointers: &[u32; 9],
    total: usize,
    receive: &mut [u8],
    cables: &mut [u8],
    start: usize,
) -> usize
    requires total_bound { total ≤ 32767 }
    requires total_in_bounds { P.Room start (3 * (total / 4)) receive.old cables.old }
    ensures { P.Decodes (total / 4) (T.bytes_in (viewed view.entry) pointers.now total) receive.old receive.new cables.old cables.new start result }
{
    let mut piece = [0u8; PIECE];
    let mut at = start;
    let mut from = 0;
    while from < total {
        let n = PIECE.min(total - from);
        let part = &mut piece[..n];
        at = decode_some(view, pointers, from, part, receive, cables, at);
        from += n;
    }
    at
}

// The state after one read, and whether the reads end there.
#[derive(Clone, Copy)]
pub struct Read {
    pub state: State,
    pub stop: bool,
}

// The state with a read counted, whose bytes end at `at` of the receive area.
fn count_read(s: State, at: usize) -> State
    ensures { result ≡ P.count_read s at }
{
    let mut next = s.count(Counter::MidiDtds, 1);
    next.answer.received = at;
    next
}

// The reads go on behind one that brought a byte or a completion.
fn after_read(s: State, ran: Ran, total: usize, at: usize) -> Read
    ensures { result ≡ P.after_read s ran total at }
{
    let next = s.after_run(ran);
    if ran.done | (total != 0) {
        return Read {
            state: count_read(next, at),
            stop: false,
        };
    }
    Read {
        state: next,
        stop: true,
    }
}

// A read of an active descriptor: its bytes are decoded before it is retired.
#[tactic(auto, using(usbdev::proofs::Tokens::total_lt))]
fn read_active(
    s: State,
    windows: &mut Windows<'_>,
    receive: &mut [u8],
    cables: &mut [u8],
    descriptor: Descriptor,
) -> Read
    requires received_in_bounds { P.Room s.answer.received 24573 receive.old cables.old }
    requires page_value { D.found (D.endpoint 1 true) (memory_of windows.old) ≡ Active descriptor }
    ensures left { P.ReadsOne s (memory_of windows.old) receive.old cables.old result (memory_of windows.new) receive.new cables.new }
    ensures same { SameWindows windows.old windows.new }
{
    let total = usbdev::total(descriptor.token) as usize;
    let start = s.answer.received;
    let ps = transfer::pointers_for(windows.view(), bits::clear(descriptor.pointer, 0x1F), total);
    let at = decode_run(windows.view(), &ps, total, receive, cables, start);
    let ran = dtd::take_one(windows, descriptor, s.port.line);
    after_read(s, ran, total, at)
}

// One read.
fn read_one(s: State, windows: &mut Windows<'_>, receive: &mut [u8], cables: &mut [u8]) -> Read
    requires { P.Room s.answer.received 24573 receive.old cables.old }
    ensures left { P.ReadsOne s (memory_of windows.old) receive.old cables.old result (memory_of windows.new) receive.new cables.new }
    ensures same { SameWindows windows.old windows.new }
{
    match dtd::begin(windows, 1, true, s.port.line) {
        Ok(descriptor) => read_active(s, windows, receive, cables, descriptor),
        Err(ran) => Read {
            state: s.after_run(ran),
            stop: true,
        },
    }
}

// Up to `count` reads, ended by the first with neither byte nor completion.
fn read_all(
    s: State,
    windows: &mut Windows<'_>,
    receive: &mut [u8],
    cables: &mut [u8],
    count: u32,
) -> State
    requires { P.Room s.answer.received (count * 24573) receive.old cables.old }
    ensures left { P.Hears (M.reads count) s (memory_of windows.old) receive.old cables.old result (memory_of windows.new) receive.new cables.new }
    ensures same { SameWindows windows.old windows.new }
{
    let mut next = s;
    for _ in 0..count {
        let read = read_one(next, windows, receive, cables);
        next = read.state;
        if read.stop {
            return next;
        }
    }
    next
}

// Polling MIDI input with nothing primed shows as a NAK.
#[tactic(auto, using(crate::proofs::Laws::nak_none, crate::proofs::Laws::nak_set), unfolding(dtd::specs::Dtd::primed))]
fn nak(page: &mut [u8; PAGE])
    ensures did { P.OnPage M.naks page.old page.new }
    ensures long { length page.new ≡ length page.old }
{
    if bits::any(word_at(&*page, EPSR), MIDI_IN) {
        return;
    }
    let old = word_at(&*page, EPNAK);
    put_at(page, EPNAK, bits::set(old, MIDI_IN));
}

// How many descriptors of MIDI input are read in this microframe.
fn reads(every: u64, uf: u64) -> u32
    ensures { result ≡ M.reads_at every uf }
{
    if every == 0 {
        return 8;
    }
    if uf % every == 0 {
        return 1;
    }
    0
}

// MIDI input of a host that is awake: its packets' bytes go into the receive area, and beside each its cable.
pub fn midi_step(
    s: State,
    every: u64,
    windows: &mut Windows<'_>,
    receive: &mut [u8],
    cables: &mut [u8],
) -> State
    requires { P.Room s.answer.received 196584 receive.old cables.old }
    ensures left { P.Hears (M.midi_in false every) s (memory_of windows.old) receive.old cables.old result (memory_of windows.new) receive.new cables.new }
    ensures same { SameWindows windows.old windows.new }
{
    nak(windows.page);
    let count = reads(every, s.port.uf);
    read_all(s, windows, receive, cables, count)
}
