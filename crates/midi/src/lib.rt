// MIDI bytes to USB-MIDI event packets: the packer of a cable, a send into the queue, and the receive table.
#![tactic(auto)]

ghost use Rattle.std.specs.Prelude.{◌≡◌, [], ◌∷◌, length, ◌+◌, ◌*◌, ◌≤◌, ◌<◌};
ghost use Rattle.std.proofs.lemmas.List.Edits.{sets};
ghost use Rattle.midi.specs.Packer as P;
ghost use Rattle.midi.specs.Packer.{fed, packet, feed_of, fed_sysex, fed_data, fed_status, holding, fresh, message_length, message_code, byte_count, running_of, code_of, packet_count, packet_bytes, Puts, Sends, sent_by};

use refusal::Refusal;

// Bytes of the queue.
pub const QUEUE: usize = 4096;

// Cables of an endpoint.
pub const CABLES: usize = 16;

// The packer between bytes: the running status, the bytes held of a message, and whether it is inside SysEx.
#[derive(Clone, Copy, Debug, PartialEq, Eq)]
pub struct Packer {
    pub status: u8,
    pub first: u8,
    pub second: u8,
    pub held: u8,
    pub sysex: bool,
}

// An event packet: its code and three bytes.
#[derive(Clone, Copy)]
pub struct Packet {
    pub code: u8,
    pub first: u8,
    pub second: u8,
    pub third: u8,
}

// What one byte leaves: the next packer, and at most one packet.
#[derive(Clone, Copy)]
pub struct Fed {
    pub next: Packer,
    pub event: Option<Packet>,
}

// The bytes of a message that starts with the status `s` (USB MIDI 1.0, table 4-1).
#[tactic(auto, unfolding(crate::specs::Packer::message_length))]
pub fn message_length(s: u8) -> u8
    ensures { result ≡ message_length s }
{
    match s {
        0xC0..=0xDF | 0xF1 | 0xF3 => 2,
        _ => 3,
    }
}

// The code of a whole message with the status `s` (USB MIDI 1.0, table 4-1).
#[tactic(auto, unfolding(crate::specs::Packer::message_length, crate::specs::Packer::message_code))]
pub fn message_code(s: u8) -> u8
    ensures { result ≡ message_code s }
{
    match s {
        0x00..=0xEF => s >> 4,
        0xF1 | 0xF3 => 2,
        _ => 3,
    }
}

// The bytes of a received packet with the code `code` (USB MIDI 1.0, table 4-1).
#[tactic(auto, unfolding(crate::specs::Packer::byte_count))]
pub fn byte_count(code: u8) -> u8
    ensures { result ≡ byte_count code }
{
    match code {
        0x5 | 0xF => 1,
        0x2 | 0x6 | 0xC..=0xD => 2,
        0x3..=0x4 | 0x7..=0xB | 0xE => 3,
        _ => 0,
    }
}

// The status that runs on after a whole message: a channel message's own, and none after a system common one.
#[tactic(auto, unfolding(crate::specs::Packer::running_of))]
fn running(s: u8) -> u8
    ensures { result ≡ running_of s }
{
    match s {
        0x00..=0xEF => s,
        _ => 0,
    }
}

impl Packer {
    // The packer of a cable on which nothing was sent.
    pub fn new() -> Packer
        ensures { result ≡ fresh }
    {
        Packer {
            status: 0,
            first: 0,
            second: 0,
            held: 0,
            sysex: false,
        }
    }

    // The packer with no byte held.
    fn empty(status: u8, sysex: bool) -> Packer
        ensures { result ≡ holding status sysex [] }
    {
        Packer {
            status,
            sysex,
            ..Packer::new()
        }
    }

    // The packer with one byte held.
    fn one_held(status: u8, sysex: bool, first: u8) -> Packer
        ensures { result ≡ holding status sysex (first ∷ []) }
    {
        Packer {
            first,
            held: 1,
            ..Packer::empty(status, sysex)
        }
    }

    // The packer with two bytes held.
    fn two_held(status: u8, sysex: bool, first: u8, second: u8) -> Packer
        ensures { result ≡ holding status sysex (first ∷ second ∷ []) }
    {
        Packer {
            second,
            held: 2,
            ..Packer::one_held(status, sysex, first)
        }
    }

    // A byte that ends no packet leaves the packer alone.
    fn quiet(self) -> Fed
        ensures { result ≡ fed self None }
    {
        Fed {
            next: self,
            event: None,
        }
    }

    // A byte that ends a packet leaves the packer and the packet.
    fn with_packet(self, code: u8, first: u8, second: u8, third: u8) -> Fed
        ensures { result ≡ fed self (packet code (first ∷ second ∷ third ∷ [])) }
    {
        let packet = Packet {
            code,
            first,
            second,
            third,
        };
        Fed {
            next: self,
            event: Some(packet),
        }
    }

    // A byte below F8 inside SysEx.
    fn in_sysex(self, b: u8) -> Fed
        ensures { result ≡ fed_sysex self b }
    {
        let s = self.status;
        if b == 0xF7 {
            let next = Packer::empty(s, false);
            return match self.held {
                0 => next.with_packet(5, b, 0, 0),
                1 => next.with_packet(6, self.first, b, 0),
                _ => next.with_packet(7, self.first, self.second, b),
            };
        }
        match self.held {
            0 => Packer::one_held(s, true, b).quiet(),
            1 => Packer::two_held(s, true, self.first, b).quiet(),
            _ => Packer::empty(s, true).with_packet(4, self.first, self.second, b),
        }
    }

    // A status byte below F8 outside SysEx.
    fn at_status(self, b: u8) -> Fed
        ensures { result ≡ fed_status self b }
    {
        match b {
            0xF0 => Packer::one_held(0, true, b).quiet(),
            0xF6 => Packer { status: 0, ..self }.with_packet(5, b, 0, 0),
            _ => Packer::empty(b, false).quiet(),
        }
    }

    // A data byte outside SysEx.
    #[tactic(auto, using(crate::proofs::Bounds::message_length_le))]
    fn at_data(self, b: u8) -> Fed
        ensures { result ≡ fed_data self b }
    {
        let s = self.status;
        if s == 0 {
            return self.quiet();
        }
        let n = self.held;
        let code = message_code(s);
        let next = Packer::empty(running(s), false);
        if 2 <= n {
            return next.with_packet(code, self.first, self.second, b);
        }
        let head = if n == 0 { s } else { self.first };
        if message_length(s) <= 2 {
            next.with_packet(code, head, b, 0)
        } else {
            Packer::two_held(s, false, head, b).quiet()
        }
    }

    // One byte: the next packer, and at most one packet.
    #[tactic(auto, using(crate::proofs::Bounds::data_code), unfolding(crate::specs::Packer::feed_of))]
    pub fn feed(self, b: u8) -> Fed
        ensures value { result ≡ feed_of self b }
        ensures event_bound { code_of result.event < 16 }
    {
        match b {
            0xF8..=0xFF => self.with_packet(0x0F, b, 0, 0),
            _ => {
                if self.sysex {
                    self.in_sysex(b)
                } else {
                    match b {
                        0x00..=0x7F => self.at_data(b),
                        _ => self.at_status(b),
                    }
                }
            }
        }
    }
}

// A packet's first byte: the cable's number and the code.
pub fn header(cable: u8, code: u8) -> u8
    requires { code < 16 }
    ensures { result ≡ P.header cable code }
{
    cable % 16 * 16 + code
}

// How many packets `bytes` makes.
#[tactic(auto, using(crate::proofs::Laws::count_at, crate::proofs::Laws::count_past))]
pub fn count_packets(p: Packer, bytes: &[u8]) -> usize
    ensures { result ≡ packet_count p bytes.now }
{
    let mut packer = p;
    let mut count: usize = 0;
    for b in bytes {
        let fed = packer.feed(*b);
        if fed.event.is_some() {
            count += 1;
        }
        packer = fed.next;
    }
    count
}

// A packet's four bytes from the place `at` on.
fn put_packet(queue: &mut [u8], at: usize, cable: u8, packet: Packet)
    requires { (at + 4 ≤ length queue.old) × (packet.code < 16) }
    ensures { queue.new ≡ sets queue.old at (packet_bytes cable (Some packet)) }
{
    queue[at] = header(cable, packet.code);
    queue[at + 1] = packet.first;
    queue[at + 2] = packet.second;
    queue[at + 3] = packet.third;
}

// What an accepted send leaves: the next packer, and the bytes then held in the queue.
#[derive(Clone, Copy)]
pub struct Sent {
    pub packer: Packer,
    pub held: usize,
}

// The packets of `bytes`, each put once, from the place `held` on.
fn put_packets(p: Packer, cable: u8, bytes: &[u8], queue: &mut [u8], held: usize) -> Sent
    requires { held + 4 * packet_count p bytes.now ≤ length queue.old }
    ensures { Puts cable p bytes.now held queue.old queue.new result.packer result.held }
{
    let mut packer = p;
    let mut at = held;
    for b in bytes {
        let fed = packer.feed(*b);
        if let Some(packet) = fed.event {
            put_packet(queue, at, cable, packet);
            at += 4;
        }
        packer = fed.next;
    }
    Sent { packer, held: at }
}

// Counts the packets of `bytes` and puts them behind the `held` bytes of the queue, or changes nothing where there is no such cable or they do not fit.
#[tactic(auto, unfolding(crate::specs::Packer::sent_on, crate::specs::Packer::queue_on, crate::specs::Packer::sent_of, crate::specs::Packer::queue_after))]
pub fn send(
    p: Packer,
    cable: u8,
    bytes: &[u8],
    queue: &mut [u8; QUEUE],
    held: usize,
) -> Result<Sent, Refusal>
    ensures { Sends cable p bytes.now held queue.old queue.new (sent_by p held result) }
{
    refusal::unless(usize::from(cable) < CABLES, Refusal::Cable)?;
    refusal::unless(held <= QUEUE, Refusal::Space)?;
    let count = count_packets(p, bytes);
    refusal::unless(count <= (QUEUE - held) / 4, Refusal::Space)?;
    Ok(put_packets(p, cable, bytes, queue, held))
}
