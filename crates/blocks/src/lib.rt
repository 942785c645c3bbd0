// Audio blocks that the device sends: the blocks of a run go, frame by frame, into the ring of received frames.
#![tactic(auto)]

ghost use Rattle.std.specs.Prelude.{◌≡◌, ◌+◌, ◌*◌, ◌%◌, ◌<◌, ◌≤◌, length, take, drop};
ghost use Rattle.bus.specs.Windows.{viewed};
ghost use Rattle.std.proofs.lemmas.List.Edits.{sets};
ghost use Rattle.transfer.specs.Transfer.{bytes_in, bytes_from};
ghost use Rattle.record.specs.Change.{ringed_place};
ghost use Rattle.model.specs.Audio.{words_of, keeps_block, keeps_blocks, blocks_of};
ghost use Rattle.record.specs.Sizes as Sizes;
ghost use Rattle.blocks.specs.Promises.{InRing, Keeps, KeepsFrames, one_bad, one_good};

use bus::View;
use record::{Audio, RING, RING_FRAMES, Ring};

// The place `ahead` frames behind place `start` of a ring with this capacity.
pub fn place(start: usize, ahead: usize, capacity: usize) -> usize
    requires { (start < capacity) × ((ahead ≤ capacity) × (capacity ≤ Sizes.FRAMES)) }
    ensures { result ≡ (start + ahead) % capacity }
{
    let sum = start + ahead;
    if sum < capacity {
        return sum;
    }
    sum - capacity
}

// The received ring after one more frame: a full one loses its oldest.
#[tactic(auto, unfolding(record::specs::Change::ringed_place))]
fn pushed(ring: Ring) -> Ring
    requires { InRing ring }
    ensures { result ≡ ringed_place ring }
{
    if ring.len < RING_FRAMES {
        return Ring {
            start: ring.start,
            len: ring.len + 1,
        };
    }
    Ring {
        start: place(ring.start, 1, RING_FRAMES),
        len: RING_FRAMES,
    }
}

// Frame f of a block goes to a place of the received ring.
#[tactic(auto, using(crate::proofs::Laws::wording_step, crate::proofs::Laws::wording_end, crate::proofs::Laws::word_of))]
fn decode_frame(block: &[u8; Audio::BLOCK], f: usize, received: &mut [u32; RING], at: usize)
    requires { (f < 7) × (at < Sizes.FRAMES) }
    ensures { received.new ≡ sets received.old (at * 12) (words_of (take 48 (drop (48 * f) (drop 32 block.now)))) }
{
    for c in 0..Audio::CHANNELS {
        received[Audio::CHANNELS * at + c] = bus::word_at(
            block,
            32 + 4 * (Audio::CHANNELS * f + c),
        );
    }
}

// The seven frames of a block go behind those in the received ring.
fn decode_frames(block: &[u8; Audio::BLOCK], received: &mut [u32; RING], before: Ring) -> Ring
    requires { InRing before }
    ensures { KeepsFrames (drop 32 block.now) before received.old result received.new }
{
    let mut ring = before;
    for f in 0..Audio::FRAMES_PER_BLOCK {
        let at = place(ring.start, ring.len, RING_FRAMES);
        decode_frame(block, f, received, at);
        ring = pushed(ring);
    }
    ring
}

// What blocks change: the received ring, the credit, and the counts of frames and of bad blocks.
#[derive(Clone, Copy)]
pub struct Decoded {
    pub ring: Ring,
    pub credit: u64,
    pub frames: u64,
    pub bad: u64,
}

// One more bad block.
fn one_bad(d: Decoded) -> Decoded
    ensures { result ≡ one_bad d }
{
    Decoded {
        bad: d.bad.wrapping_add(1),
        ..d
    }
}

// One more good block, whose frames are in the ring.
fn one_good(d: Decoded, ring: Ring) -> Decoded
    ensures { result ≡ one_good d ring }
{
    Decoded {
        ring,
        credit: d.credit.wrapping_add(Audio::FRAMES_PER_BLOCK as u64),
        frames: d.frames.wrapping_add(Audio::FRAMES_PER_BLOCK as u64),
        ..d
    }
}

// One whole block, from byte `from` of the run on: bad where its first byte is not 07.
fn decode_block(
    view: View<'_>,
    pointers: &[u32; 9],
    from: usize,
    received: &mut [u32; RING],
    d: Decoded,
) -> Decoded
    requires from_bound { from + 368 ≤ 32767 }
    requires in_ring { InRing d.ring }
    ensures { Keeps (keeps_block (bytes_from (viewed view.entry) pointers.now from 368)) d received.old result received.new }
{
    let mut block = [0u8; Audio::BLOCK];
    transfer::copy_part(view, pointers, from, &mut block);
    if block[0] != 7 {
        return one_bad(d);
    }
    let before = d.ring;
    let ring = decode_frames(&block, received, before);
    one_good(d, ring)
}

// All blocks of a run of `total` bytes; a short one at its end is bad.
pub fn decode_run(
    view: View<'_>,
    pointers: &[u32; 9],
    total: usize,
    received: &mut [u32; RING],
    before: Decoded,
) -> Decoded
    requires total_bound { total ≤ 32767 }
    requires in_ring { InRing before.ring }
    ensures { Keeps (keeps_blocks (blocks_of (bytes_in (viewed view.entry) pointers.now total))) before received.old result received.new }
{
    let mut d = before;
    for i in 0..total / Audio::BLOCK {
        d = decode_block(view, pointers, Audio::BLOCK * i, received, d);
    }
    if total % Audio::BLOCK != 0 {
        return one_bad(d);
    }
    d
}
