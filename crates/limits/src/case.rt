// A case that all calls are tried on: its fields are as usual, but for those of a row.
ghost use Rattle.std.specs.Prelude.{◌≤◌, length};

use midi::Packer;
use record::{Counter, Phase, Settings, State};
use std::fmt;

// Lengths of what the calls are lent, given and sent, the place of an access, the record, one cable's packer.
#[derive(Clone, Copy, PartialEq, Eq)]
pub enum Field {
    Dynamic,
    Static,
    Page,
    ReplyArea,
    ConfigArea,
    ReceiveArea,
    CablesArea,
    ReceivedRing,
    SendingRing,
    Frame,
    Bytes,
    Offset,
    Size,
    MidiBytes,
    MidiByte,
    Cable,
    Spans,
    Waiting,
    Midi,
    Serial,
    Device,
    Config,
    Counts,
    Credit,
    Budget,
    ReceivedStart,
    ReceivedHeld,
    SendingStart,
    SendingHeld,
    PackerCable,
    Status,
    Held,
}

impl Field {
    // Three microframes after `new`, streaming, with nothing held; F8 is sent on cable 0.
    fn usual(self) -> u64 {
        match self {
            Field::Dynamic | Field::Page => 4096,
            Field::Static => 65_536,
            Field::ReplyArea | Field::ConfigArea => 65_535,
            Field::ReceiveArea | Field::CablesArea => 196_608,
            Field::ReceivedRing => 576_000,
            Field::SendingRing => 84,
            Field::Frame => 12,
            Field::Bytes | Field::MidiBytes => 1,
            Field::Offset => 0x200,
            Field::Size => 4,
            Field::MidiByte => 0xF8,
            Field::Counts => 3,
            _ => 0,
        }
    }
}

impl fmt::Display for Field {
    fn fmt<W: fmt::Write>(&self, f: &mut fmt::Formatter<W>) -> fmt::Result {
        f.write_str(match self {
            Field::Dynamic => "dynamic memory",
            Field::Static => "static memory",
            Field::Page => "page",
            Field::ReplyArea => "reply area",
            Field::ConfigArea => "configuration area",
            Field::ReceiveArea => "receive area",
            Field::CablesArea => "cables area",
            Field::ReceivedRing => "received ring",
            Field::SendingRing => "sending ring",
            Field::Frame => "frame",
            Field::Bytes => "serial bytes sent",
            Field::Offset => "access at",
            Field::Size => "access of",
            Field::MidiBytes => "MIDI bytes sent",
            Field::MidiByte => "MIDI byte",
            Field::Cable => "cable",
            Field::Spans => "gone spans",
            Field::Waiting => "setups waiting",
            Field::Midi => "MIDI queue",
            Field::Serial => "serial queue",
            Field::Device => "device descriptor",
            Field::Config => "configuration",
            Field::Counts => "microframes",
            Field::Credit => "credit after 3 microframes",
            Field::Budget => "input budget",
            Field::ReceivedStart => "received ring's start",
            Field::ReceivedHeld => "received frames",
            Field::SendingStart => "sending ring's start",
            Field::SendingHeld => "sending frames",
            Field::PackerCable => "packer of cable",
            Field::Status => "status",
            Field::Held => "held",
        })
    }
}

// A field and its value, at a limit, past it or beside one.
#[derive(Clone, Copy)]
pub struct Limit {
    pub field: Field,
    pub value: u64,
}

impl fmt::Display for Limit {
    fn fmt<W: fmt::Write>(&self, f: &mut fmt::Formatter<W>) -> fmt::Result {
        let field = self.field;
        let value = self.value;
        write!(f, "{field} {value}")
    }
}

// A row of the list: the fields that are not as usual.
#[derive(Clone, Copy)]
pub struct Row {
    pub first: Limit,
    pub beside: [Option<Limit>; 3],
}

// A row of one field.
pub fn at(field: Field, value: u64) -> Row {
    Row {
        first: Limit { field, value },
        beside: [None; 3],
    }
}

impl fmt::Display for Row {
    fn fmt<W: fmt::Write>(&self, f: &mut fmt::Formatter<W>) -> fmt::Result {
        let first = self.first;
        write!(f, "{first}")?;
        for limit in self.beside.iter().flatten() {
            write!(f, ", {limit}")?;
        }
        Ok(())
    }
}

impl Row {
    // The row with one field more.
    pub fn and(self, field: Field, value: u64) -> Row {
        let mut next = self;
        for place in next
            .beside
            .iter_mut()
            .filter(|place| place.is_none())
            .take(1)
        {
            *place = Some(Limit { field, value });
        }
        next
    }

    // A field's value.
    pub fn of(&self, field: Field) -> u64 {
        if self.first.field == field {
            return self.first.value;
        }
        for limit in self.beside.iter().flatten() {
            if limit.field == field {
                return limit.value;
            }
        }
        field.usual()
    }

    // A field that is a length or a place.
    pub fn size(&self, field: Field) -> usize {
        self.of(field) as usize
    }

    // The low byte of a field.
    pub fn byte(&self, field: Field) -> u8 {
        (self.of(field) % 256) as u8
    }

    // The low word of a field.
    pub fn word(&self, field: Field) -> u32 {
        (self.of(field) % 0x1_0000_0000) as u32
    }

    // As much of something as a field says, and no more than there is.
    pub fn first<'a, T>(&self, field: Field, items: &'a [T]) -> &'a [T] {
        &items[..self.size(field).min(items.len())]
    }

    pub fn first_mut<'a, T>(&self, field: Field, items: &'a mut [T]) -> &'a mut [T] {
        let n = self.size(field).min(items.len());
        &mut items[..n]
    }

    // Setups wait in enumeration alone.
    pub fn state(&self) -> State {
        let waiting = self.size(Field::Waiting);
        let phase = if waiting == 0 {
            Phase::Stream
        } else {
            Phase::Enumerate
        };
        let mut next = usbhost::new_state()
            .with_phase(phase)
            .with_counter(Counter::Microframes, self.of(Field::Counts));
        next.port.uf = self.of(Field::Counts);
        next.lengths.setups = waiting;
        next.lengths.midi = self.size(Field::Midi);
        next.lengths.serial = self.size(Field::Serial);
        next.lengths.device = self.size(Field::Device);
        next.lengths.config = self.size(Field::Config);
        next.audio.credit = self.of(Field::Credit);
        next.audio.budget = self.of(Field::Budget);
        next.audio.received.start = self.size(Field::ReceivedStart);
        next.audio.received.len = self.size(Field::ReceivedHeld);
        next.audio.sending.start = self.size(Field::SendingStart);
        next.audio.sending.len = self.size(Field::SendingHeld);
        next
    }

    pub fn settings(&self) -> Settings {
        let mut next = usbhost::no_settings();
        next.spans = self.size(Field::Spans);
        next
    }

    // One cable's packer by its fields, the others fresh.
    pub fn packers(&self) -> [Packer; midi::CABLES] {
        let mut all = [Packer::new(); midi::CABLES];
        let cable = self.size(Field::PackerCable);
        if cable < midi::CABLES {
            all[cable].status = self.byte(Field::Status);
            all[cable].held = self.byte(Field::Held);
        }
        all
    }
}
