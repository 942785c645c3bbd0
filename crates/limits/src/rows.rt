// The list: each row's fields that are not as usual, at a limit or past it.
use crate::case::{Field, Row, at};

const MOST: u64 = 0x100_0000_0000;

// Bytes held by a cable's packer.
fn packer(cable: u64, held: u64) -> Row {
    at(Field::PackerCable, cable).and(Field::Held, held)
}

// A byte that makes a packet by cable 0's packer and none by another's, where the queue is full.
fn ended() -> Row {
    at(Field::Midi, 4096)
        .and(Field::Status, 0xC0)
        .and(Field::MidiByte, 0x40)
}

// Numbers 1 and 2.
pub fn lengths() -> [Row; 29] {
    [
        at(Field::Dynamic, 2048),
        at(Field::Dynamic, 4096),
        at(Field::Dynamic, 6144),
        at(Field::Dynamic, 8192),
        at(Field::Static, 65_535),
        at(Field::Static, 65_536),
        at(Field::Static, 65_537),
        at(Field::Page, 4095),
        at(Field::Page, 4096),
        at(Field::Page, 4097),
        at(Field::ReplyArea, 65_534),
        at(Field::ReplyArea, 65_535),
        at(Field::ConfigArea, 65_534),
        at(Field::ConfigArea, 65_535),
        at(Field::ReceiveArea, 196_607),
        at(Field::ReceiveArea, 196_608),
        at(Field::CablesArea, 196_607),
        at(Field::CablesArea, 196_608),
        at(Field::ReceivedRing, 575_999),
        at(Field::ReceivedRing, 576_000),
        at(Field::ReceivedRing, 576_001),
        at(Field::SendingRing, 83),
        at(Field::SendingRing, 84),
        at(Field::SendingRing, 85),
        at(Field::SendingRing, 576_000),
        at(Field::SendingRing, 576_012),
        at(Field::Frame, 11),
        at(Field::Frame, 12),
        at(Field::Frame, 13),
    ]
}

// Numbers 3 and 4, and the fields of the record but those of rings and packers.
pub fn fields() -> [Row; 28] {
    [
        at(Field::Spans, 16),
        at(Field::Spans, 17),
        at(Field::Size, 3),
        at(Field::Offset, 4092),
        at(Field::Offset, 4096),
        at(Field::Waiting, 257),
        at(Field::Waiting, 258),
        at(Field::Midi, 4092),
        at(Field::Midi, 4096),
        at(Field::Midi, 4100),
        at(Field::Serial, 4095),
        at(Field::Serial, 4096),
        at(Field::Serial, 4097),
        at(Field::Bytes, 4096),
        at(Field::Bytes, 4097),
        at(Field::Device, 64),
        at(Field::Device, 65),
        at(Field::Config, 65_535),
        at(Field::Config, 65_536),
        at(Field::Config, 65_536).and(Field::ConfigArea, 65_536),
        at(Field::Config, 65_537).and(Field::ConfigArea, 65_536),
        at(Field::Credit, 1869),
        at(Field::Credit, 1876),
        at(Field::Budget, 32_766),
        at(Field::Budget, 32_767),
        at(Field::Counts, MOST - 1),
        at(Field::Counts, MOST),
        at(Field::Counts, MOST + 1),
    ]
}

// Number 8, and the packers that a send asks: its own for space, all for their bounds.
pub fn cables() -> [Row; 11] {
    [
        at(Field::Cable, 15),
        at(Field::Cable, 16),
        at(Field::Cable, 255),
        at(Field::Cable, 15).and(Field::MidiBytes, 0),
        at(Field::Cable, 16).and(Field::MidiBytes, 0),
        at(Field::Cable, 255).and(Field::MidiBytes, 0),
        ended(),
        ended().and(Field::Cable, 3),
        packer(15, 2).and(Field::Status, 0x90),
        packer(0, 3).and(Field::Cable, 15),
        packer(15, 3).and(Field::Cable, 15),
    ]
}

// A cable's packer with three bytes held, and with two under a status of two.
pub fn packers(cable: u64) -> [Row; 2] {
    [packer(cable, 3), packer(cable, 2).and(Field::Status, 0xC0)]
}

// Rings, and the order of the numbers: of two that are met the one tested first is answered.
pub fn rings() -> [Row; 21] {
    [
        at(Field::ReceivedStart, 47_999),
        at(Field::ReceivedStart, 48_000),
        at(Field::ReceivedHeld, 48_000),
        at(Field::ReceivedHeld, 48_001),
        at(Field::SendingStart, 6),
        at(Field::SendingStart, 7),
        at(Field::SendingHeld, 6),
        at(Field::SendingHeld, 7),
        at(Field::SendingHeld, 8),
        at(Field::SendingHeld, 47_999).and(Field::SendingRing, 576_000),
        at(Field::SendingHeld, 48_001).and(Field::SendingRing, 576_000),
        at(Field::Static, 65_535).and(Field::ReplyArea, 65_534),
        at(Field::Page, 4095).and(Field::Spans, 17),
        at(Field::SendingRing, 83).and(Field::Spans, 17),
        at(Field::Spans, 17).and(Field::Device, 65),
        at(Field::Size, 3).and(Field::Device, 65),
        at(Field::Counts, MOST).and(Field::Device, 65),
        at(Field::Spans, 17).and(Field::Cable, 16),
        at(Field::Cable, 16).and(Field::Device, 65),
        at(Field::Cable, 16).and(Field::Midi, 4096),
        at(Field::Cable, 16)
            .and(Field::MidiBytes, 0)
            .and(Field::Device, 65),
    ]
}
