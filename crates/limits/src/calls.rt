// Each call but the microframe on a case, with what it must leave of what it is lent: a refusal everything, an accepted one as much new as it adds.
use crate::case::{Field, Row};
use crate::marks::{MARK, WORD_MARK, changed};
use refusal::Refusal;
use std::fmt;
use usbhost::Parts;

// What a call answered: its refusal, or none, and whether it left what it must.
#[derive(Clone, Copy)]
pub struct Seen {
    pub refusal: Option<Refusal>,
    pub right: bool,
}

impl Seen {
    // A call of which only a refusal is judged.
    pub fn judged<A: Drop>(called: Result<A, Refusal>, kept: bool) -> Seen {
        Seen {
            right: called.is_ok() | kept,
            refusal: called.err(),
        }
    }

    // A call that changes so much of an area where it is accepted.
    fn added<A: Drop>(called: Result<A, Refusal>, change: usize, adds: usize) -> Seen {
        let expected = if called.is_ok() { adds } else { 0 };
        Seen {
            right: change == expected,
            refusal: called.err(),
        }
    }
}

// The number of a refusal, or 0.
pub fn number(refusal: Option<Refusal>) -> u8 {
    refusal.map_or(0, |refusal| refusal.number())
}

// The number, with a mark where the call did not leave what it must.
impl fmt::Display for Seen {
    fn fmt<W: fmt::Write>(&self, f: &mut fmt::Formatter<W>) -> fmt::Result {
        let number = number(self.refusal);
        write!(f, "{number}")?;
        if self.right {
            Ok(())
        } else {
            f.write_str(" WRONG")
        }
    }
}

// Byte i of a queue of addresses.
fn address(i: usize) -> u8 {
    match i % 8 {
        1 => 5,
        2 => 7,
        _ => 0,
    }
}

pub fn addresses() -> [u8; record::SETUP_BYTES] {
    std::array::from_fn(address)
}

// The record of a case by the parts that a call reads.
fn parts<'a>(row: &Row, setups: &'a [u8; record::SETUP_BYTES]) -> Parts<'a> {
    Parts {
        state: row.state(),
        spans: row.size(Field::Spans),
        packers: row.packers(),
        setups,
    }
}

// A realtime byte makes a packet whatever the packer holds; another is accepted only by rows in which it makes none.
fn packet_bytes(bytes: &[u8]) -> usize {
    match bytes {
        [0xF8..=0xFF, ..] => 4,
        _ => 0,
    }
}

// One byte sent on a cable, or none.
pub fn midi_sent(row: &Row) -> Seen {
    let mut queue = [MARK; record::QUEUE];
    let byte = [row.byte(Field::MidiByte)];
    let bytes = row.first(Field::MidiBytes, &byte);
    let sent = usbhost::send_midi(
        parts(row, &addresses()),
        row.byte(Field::Cable),
        bytes,
        &mut queue,
    );
    Seen::added(sent, changed(&queue, MARK), packet_bytes(bytes))
}

// The first of these bytes sent.
pub fn serial_sent(row: &Row, bytes: &[u8]) -> Seen {
    let mut queue = [MARK; record::QUEUE];
    let part = row.first(Field::Bytes, bytes);
    let sent = usbhost::send_serial(parts(row, &addresses()), part, &mut queue);
    Seen::added(sent, changed(&queue, MARK), part.len())
}

// The first of these words given to the first of a ring of marks.
pub fn given(row: &Row, frame: &[u32], ring: &mut [u32]) -> Seen {
    let done = usbhost::give_frame(
        parts(row, &addresses()),
        row.first(Field::Frame, frame),
        row.first_mut(Field::SendingRing, ring),
    );
    Seen::added(done, changed(&*ring, WORD_MARK), 12)
}

// A frame taken from the first of a ring.
pub fn taken(row: &Row, ring: &[u32]) -> Seen {
    let done = usbhost::take_frame(
        parts(row, &addresses()),
        row.first(Field::ReceivedRing, ring),
    );
    Seen::judged(done, true)
}

pub fn device_read(row: &Row, page: &[u8]) -> Seen {
    let done = usbhost::read_device(
        parts(row, &addresses()),
        row.first(Field::Page, page),
        row.word(Field::Offset),
        row.word(Field::Size),
    );
    Seen::judged(done, true)
}

// On the first of a page of marks.
pub fn device_written(row: &Row, page: &mut [u8]) -> Seen {
    let size = row.word(Field::Size);
    let done = usbhost::write_device(
        parts(row, &addresses()),
        row.first_mut(Field::Page, page),
        row.word(Field::Offset),
        size,
        0x0102_0304,
    );
    Seen::added(done, changed(&*page, MARK), size as usize)
}
