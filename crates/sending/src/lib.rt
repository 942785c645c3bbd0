// The audio block that the host sends: a header, and the oldest frames of the sending ring.
#![tactic(auto)]

ghost use Rattle.std.specs.Prelude.{◌≡◌, List, ◌++◌, ℕ, ◌+◌, ◌*◌, ◌<◌, ◌≤◌, length, take, drop, replicate};
ghost use Rattle.record.specs.World.{World};
ghost use Rattle.model.specs.Audio.{channel_bytes, frame_bytes};
ghost use Rattle.record.specs.Sizes as Sizes;
ghost use Rattle.sending.specs.Promises.{Begun, Sends, header_of, at_sending};

use record::{Audio, Ring};

// Bytes of the longest block.
pub const LONGEST: usize = 2048;

// The start of a block of zeros: 07 FF, and the stream counter.
fn encode_header(block: &mut [u8; LONGEST], counter: u16)
    requires { block.old ≡ replicate 2048 0 }
    ensures { Begun block.new (header_of counter) }
{
    block[0] = 0x07;
    block[1] = 0xFF;
    block[2] = (counter / 256) as u8;
    block[3] = (counter % 256) as u8;
}

// The words of the frame at a place of the sending ring go to the block from index `from` on; past its twelve words the block keeps its zeros.
fn encode_frame(block: &mut [u8; LONGEST], from: usize, channels: usize, sending: &[u32], at: usize)
    requires from_bound { from + 4 * channels ≤ 2048 }
    requires at_in_bounds { (at * 12 + 12 ≤ length sending.now) × (at < Sizes.FRAMES) }
    ensures { (p : List ℕ) → length p ≡ from → Begun block.old p → Begun block.new (p ++ channel_bytes channels (take 12 (drop (at * 12) sending.now))) }
{
    for c in 0..channels.min(Audio::CHANNELS) {
        bus::put_at(block, from + 4 * c, sending[Audio::CHANNELS * at + c]);
    }
}

// Up to seven frames of the sending ring go to the block; where it holds fewer the block keeps its zeros.
fn encode_frames(
    block: &mut [u8; LONGEST],
    channels: usize,
    sending: &[u32],
    ring: Ring,
    capacity: usize,
)
    requires channels_bound { 32 + 28 * channels ≤ 2048 }
    requires sends { Sends ring capacity sending.now }
    ensures { (w : World) (p : List ℕ) → length p ≡ 32 → Begun block.old p → Begun block.new (p ++ frame_bytes 0 7 (at_sending w ring channels sending.now)) }
{
    for f in 0..ring.len.min(Audio::FRAMES_PER_BLOCK) {
        let at = blocks::place(ring.start, f, capacity);
        encode_frame(block, 32 + 4 * (f * channels), channels, sending, at);
    }
}

// A block of zeros becomes the block that is sent, and zeros behind it.
pub fn encode(
    block: &mut [u8; LONGEST],
    counter: u16,
    channels: usize,
    sending: &[u32],
    ring: Ring,
    capacity: usize,
)
    requires block_value { (block.old ≡ replicate 2048 0) × (32 + 28 * channels ≤ 2048) }
    requires sends { Sends ring capacity sending.now }
    ensures { (w : World) → Begun block.new (header_of counter ++ frame_bytes 0 7 (at_sending w ring channels sending.now)) }
{
    encode_header(block, counter);
    encode_frames(block, channels, sending, ring, capacity);
}
