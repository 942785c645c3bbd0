// Timers and packers as the answers to a script's lines show them.
#![tactic(auto)]

ghost use Rattle.std.specs.Prelude.{◌≡◌};
ghost use Rattle.script.specs.Fnv.{START, mixed_all};
ghost use Rattle.midi.specs.Packer.{held_bytes};
ghost use Rattle.stdio.specs.Behind.{Behind};

use gptimers::ZERO;
use midi::Packer;
use script::{answers, hash};
use stdio::Output;

// Whether a timer is loaded, and its count in two's complement.
pub fn show_timer(timer: Option<u64>, out: &mut Output)
    ensures { Behind 19 out.old out.new }
{
    answers::flag(out, timer.is_some());
    let count = timer.unwrap_or(ZERO);
    answers::field(out, count.wrapping_sub(ZERO));
}

// A packer's status, how many bytes it holds, and whether it is inside SysEx.
pub fn show_packer(packer: Packer, out: &mut Output)
    ensures { Behind 36 out.old out.new }
{
    answers::field(out, u64::from(packer.status));
    answers::field(out, u64::from(packer.held));
    answers::flag(out, packer.sysex);
}

// The hash of the bytes that a packer holds.
pub fn held_hash(packer: Packer) -> u64
    ensures { result ≡ mixed_all START (held_bytes packer) }
{
    match packer.held {
        0 => hash::START,
        1 => hash::mixed(hash::START, packer.first),
        _ => hash::mixed(hash::mixed(hash::START, packer.first), packer.second),
    }
}
