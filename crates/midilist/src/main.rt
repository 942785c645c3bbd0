// Lists the USB-MIDI packets that the bytes of standard input make.
#![tactic(auto)]

ghost use Rattle.std.specs.Prelude.{◌≡◌, ◌+◌, ◌*◌, ◌<◌, ◌≤◌, length};
ghost use Rattle.std.proofs.lemmas.List.Edits.{sets};
ghost use Rattle.midilist.specs.Listing.{digit_of, byte_text, line, Lists};

use midi::Packer;
use std::fmt::Write;
use stdio::{Input, Output};

// A hexadecimal digit, in upper case.
#[tactic(auto, unfolding(crate::specs::Listing::digit_of))]
fn digit(n: u8) -> u8
    requires { n < 16 }
    ensures { result ≡ digit_of n }
{
    b"0123456789ABCDEF"[n as usize]
}

// The two digits of `b`, and `after`, from the place `at` on.
fn put_byte(out: &mut [u8], at: usize, b: u8, after: u8)
    requires { at + 3 ≤ length out.old }
    ensures { out.new ≡ sets out.old at (byte_text b after) }
{
    out[at] = digit(b / 16);
    out[at + 1] = digit(b % 16);
    out[at + 2] = after;
}

// A packet's line from the place `at` on.
fn put_line(out: &mut [u8], at: usize, code: u8, x: u8, y: u8, z: u8)
    requires { (at + 12 ≤ length out.old) × (code < 16) }
    ensures { out.new ≡ sets out.old at (line code x y z) }
{
    put_byte(out, at, midi::header(0, code), b' ');
    put_byte(out, at + 3, x, b' ');
    put_byte(out, at + 6, y, b' ');
    put_byte(out, at + 9, z, b'\n');
}

// What a piece of the input left: the packer after it, its packets, and the length of their lines.
#[derive(Clone, Copy)]
struct Piece {
    packer: Packer,
    packets: usize,
    end: usize,
}

// Feeds the bytes of a piece, and puts the lines of their packets at the start of `out`.
fn list_piece(p: Packer, bytes: &[u8], out: &mut [u8]) -> Piece
    requires { 12 * length bytes.now ≤ length out.old }
    ensures { Lists p bytes.now out.old out.new result.packer result.packets result.end }
{
    let mut packer = p;
    let mut packets: usize = 0;
    let mut end: usize = 0;
    for b in bytes {
        let fed = packer.feed(*b);
        if let Some(packet) = fed.event {
            put_line(
                out,
                end,
                packet.code,
                packet.first,
                packet.second,
                packet.third,
            );
            end += 12;
            packets += 1;
        }
        packer = fed.next;
    }
    Piece {
        packer,
        packets,
        end,
    }
}

// The packer behind all that was fed, and how many packets there were.
#[derive(Clone, Copy)]
struct Listing {
    packer: Packer,
    packets: u64,
}

impl Listing {
    // Feeds some bytes, and puts out the lines of their packets.
    fn feed(&mut self, bytes: &[u8], text: &mut [u8], out: &mut Output)
        requires { 12 * length bytes.now ≤ length text.old }
    {
        let piece = list_piece(self.packer, bytes, text);
        let packer = piece.packer;
        self.packer = packer;
        self.packets = self.packets.wrapping_add(piece.packets as u64);
        out.append(&text[..piece.end]);
    }
}

// Every piece, whose lines are written at once, up to a write that fails.
fn list(input: &mut Input, out: &mut Output) -> Listing {
    let mut text = [0u8; 49152];
    let mut listing = Listing {
        packer: Packer::new(),
        packets: 0,
    };
    for _ in 0..u64::MAX {
        if out.failed() {
            break;
        }
        let Some(piece) = input.next_piece() else {
            break;
        };
        for bytes in piece.chunks(4096) {
            listing.feed(bytes, &mut text, out);
        }
        out.flush();
    }
    listing
}

// The heading, the list, and a last line of the packets and of the bytes held in the packer.
fn main(rt: HostRuntime) {
    let mut input = Input::new(rt);
    let mut out = Output::new(rt);
    out.append(b"usb-midi\n");
    out.flush();
    let listing = list(&mut input, &mut out);
    if !input.failed() {
        let packets = listing.packets;
        let held = listing.packer.held;
        let _ = writeln!(out, "{packets} packets, {held} held");
    }
    out.finish("midilist", "the list is", input.failed());
}
