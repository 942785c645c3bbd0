// Entries for C and Rust on numbers and bytes alone: device accesses, words of memory, the interface choice, a MIDI send.
#![tactic(auto)]

ghost use Rattle.std.specs.Prelude.{◌≡◌, ◌^◌, ◌≤◌, ◌<◌};
ghost use Rattle.bus.specs.Memory as M;
ghost use Rattle.bus.specs.Memory.{shown};
ghost use Rattle.bus.specs.Checked.{peeked, poked, kept};
ghost use Rattle.usbdev.specs.Access as Access;
ghost use Rattle.usbdev.specs.Registers.{registers};
ghost use Rattle.config.specs.Config.{parsed};
ghost use Rattle.config.specs.Table.{table_of};
ghost use Rattle.midi.specs.Packer.{sent_by};
ghost use Rattle.exports.specs.Answers as Answers;
ghost use Rattle.exports.specs.Send as Send;

use midi::{Packer, Sent};
use refusal::Refusal;

// A refusal's number above what is answered.
fn above(refusal: u8, low: u32) -> u64
    ensures { result ≡ Answers.above refusal low }
{
    u64::from(refusal) * 0x1_0000_0000 + u64::from(low)
}

// What is answered, or 0 under the number of the refusal.
fn answered(answer: Result<u32, Refusal>) -> u64
    ensures { result ≡ Answers.answered answer }
{
    match answer {
        Ok(low) => u64::from(low),
        Err(refusal) => above(refusal.number(), 0),
    }
}

// A device read of size bytes at an offset of the register page: refusal * 2^32 + value.
#[unsafe(no_mangle)]
pub extern "C" fn usb_device_read(page: &[u8], offset: u32, size: u32) -> u64
    ensures { result ≡ Answers.of_value (Access.reading page.now offset size) }
{
    answered(usbdev::read(page, offset, size))
}

// A device write; the line's flag goes in and comes out: refusal * 2^32 + flag.
#[unsafe(no_mangle)]
pub extern "C" fn usb_device_write(
    page: &mut [u8],
    offset: u32,
    size: u32,
    value: u32,
    line: bool,
) -> u64
    ensures { (result ≡ Answers.of_written (Access.writing (registers page.old line) offset size value)) × (page.new ≡ Access.written (registers page.old line) offset size value) }
{
    match usbdev::write(page, offset, size, value, line) {
        Ok(next) => above(0, u32::from(next)),
        Err(refusal) => above(refusal.number(), u32::from(line)),
    }
}

// The word at an address of the three windows: refusal * 2^32 + word.
#[unsafe(no_mangle)]
pub extern "C" fn usb_peek32(dynamic: &[u8], sram: &[u8], page: &[u8], address: u32) -> u64
    ensures { result ≡ Answers.of_peeked (peeked (shown dynamic.now sram.now page.now) (M.peek32 (shown dynamic.now sram.now page.now) address)) }
{
    answered(bus::checked_peek32(dynamic, sram, page, address))
}

// Stores a word at an address of the three windows: refusal * 2^32 + bytes dropped.
#[unsafe(no_mangle)]
pub extern "C" fn usb_poke32(
    dynamic: &mut [u8],
    sram: &mut [u8],
    page: &mut [u8],
    address: u32,
    value: u32,
) -> u64
    ensures { (result ≡ Answers.of_poked (poked (shown dynamic.old sram.old page.old) (M.dropped32 address))) × (shown dynamic.new sram.new page.new ≡ kept (shown dynamic.old sram.old page.old) (M.poke32 (shown dynamic.old sram.old page.old) address value)) }
{
    answered(bus::checked_poke32(dynamic, sram, page, address, value))
}

// The number of pairs above the two sizes.
fn of_sizes(count: usize, output: u32, input: u32) -> u64
    requires { count ≤ 256 }
    ensures { result ≡ Answers.of_sizes count output input }
{
    (count as u64) * 0x1_0000_0000 + (output as u64) * 0x1_0000 + (input as u64)
}

// The interface choice of any bytes: pairs * 2^32 + output size * 2^16 + input size, and the pairs in two arrays, zero past the last.
#[unsafe(no_mangle)]
pub extern "C" fn usb_parse_config(
    bytes: &[u8],
    interfaces: &mut [u8; 256],
    alternates: &mut [u8; 256],
) -> u64
    ensures { (result ≡ Answers.of_config (table_of (parsed bytes.now))) × ((interfaces.new ≡ (table_of (parsed bytes.now)).interfaces) × (alternates.new ≡ (table_of (parsed bytes.now)).alternates)) }
{
    let info = config::parse_config(bytes);
    let pairs = info.pairs.as_slice();
    interfaces.fill(0);
    alternates.fill(0);
    for (i, pair) in pairs.iter().enumerate() {
        interfaces[i] = pair.interface;
        alternates[i] = pair.alternate;
    }
    of_sizes(pairs.len(), info.ob_out_packet, info.ob_in_packet)
}

fn of_packer(p: Packer) -> u64
    ensures { (result ≡ Answers.of_packer p) × (result < 2 ^ 40) }
{
    u64::from(p.sysex) * 0x1_0000_0000
        + u64::from(p.held) * 0x100_0000
        + u64::from(p.second) * 0x1_0000
        + u64::from(p.first) * 0x100
        + u64::from(p.status)
}

fn packer_of(n: u64) -> Packer
    ensures { result ≡ Answers.packer_of n }
{
    Packer {
        status: (n % 256) as u8,
        first: (n / 0x100 % 256) as u8,
        second: (n / 0x1_0000 % 256) as u8,
        held: (n / 0x100_0000 % 256) as u8,
        sysex: n / 0x1_0000_0000 % 2 == 1,
    }
}

// A send's answer: refusal, bytes held and packer, one above the other. A refused one leaves the packer and the bytes held as they were.
fn of_sent(p: Packer, held: u16, done: Result<Sent, Refusal>) -> u64
    requires { (sent_by p held done).held < 65536 }
    ensures { result ≡ Answers.of_sent (sent_by p held done) }
{
    match done {
        Ok(sent) => (sent.held as u64) * 0x100_0000_0000 + of_packer(sent.packer),
        Err(refusal) => {
            u64::from(refusal.number()) * 0x100_0000_0000_0000
                + u64::from(held) * 0x100_0000_0000
                + of_packer(p)
        }
    }
}

// Number 5: a packer inside its bound, and a queue that holds whole packets.
#[tactic(auto, unfolding(crate::specs::Send::bounded))]
fn bounded(p: Packer, held: u16) -> bool
    ensures { result ≡ Send.bounded p held }
{
    let inside = bounds::packer_ok(p);
    inside & ((held as usize <= midi::QUEUE) & (held % 4 == 0))
}

// A send of a packer and a queue that may lie outside number 5's bounds.
#[tactic(auto, unfolding(crate::specs::Send::midi_sent, crate::specs::Send::midi_queue, midi::specs::Packer::sent_on, midi::specs::Packer::queue_on))]
fn send_bounded(
    p: Packer,
    cable: u8,
    bytes: &[u8],
    queue: &mut [u8; midi::QUEUE],
    held: u16,
) -> Result<Sent, Refusal>
    ensures { (sent_by p held result ≡ Send.midi_sent cable p bytes.now held) × (queue.new ≡ Send.midi_queue cable p bytes.now held queue.old) }
{
    refusal::unless(usize::from(cable) < midi::CABLES, Refusal::Cable)?;
    refusal::unless(bounded(p, held), Refusal::Bounds)?;
    midi::send(p, cable, bytes, queue, usize::from(held))
}

// The packets of bytes behind the held ones of a queue: refusal (8, 5 or 7, tested in this order) * 2^56 + held * 2^40 + packer. A new packer is 0, and an answer is the next.
#[tactic(auto, using(crate::proofs::Fields::midi_sent_held))]
#[unsafe(no_mangle)]
pub extern "C" fn usb_midi_send(
    packer: u64,
    cable: u8,
    bytes: &[u8],
    queue: &mut [u8; midi::QUEUE],
    held: u16,
) -> u64
    ensures { (result ≡ Answers.of_sent (Send.midi_sent cable (Answers.packer_of packer) bytes.now held)) × (queue.new ≡ Send.midi_queue cable (Answers.packer_of packer) bytes.now held queue.old) }
{
    let p = packer_of(packer);
    of_sent(p, held, send_bounded(p, cable, bytes, queue, held))
}
