// What a finished request brings: descriptors are kept, and a configuration says which setups follow.
#![tactic(auto)]

ghost use Rattle.std.specs.Prelude.{◌≡◌, false, List, ℕ, ◌+◌, ◌*◌, ◌<◌, ◌≤◌, length, take};
ghost use Rattle.std.proofs.lemmas.List.Edits.{sets};
ghost use Rattle.config.specs.Config.{out_block};
ghost use Rattle.config.specs.Pairs.{listed};
ghost use Rattle.record.specs.Record.{with_on, with_control};
ghost use Rattle.model.specs.Control as C;
ghost use Rattle.record.specs.Sizes as Sizes;
ghost use Rattle.finished.specs.Promises as P;

use config::{OutBlock, Pair};
use record::{
    Audio, Control, DEVICE, GET_CONFIGURATION, SET_CONFIGURATION, SET_INTERFACE, SETUP_BYTES, State,
};

// A configuration reply of this length is a header.
const HEADER: usize = 9;

// Whether a request asks for the descriptor of a type.
fn asks_for(c: Control, kind: u32) -> bool
    ensures { result ≡ C.asks_for kind c }
{
    (c.first % 256 == 0x80) & ((c.first / 256 % 256 == 6) & (c.first / 0x100_0000 == kind))
}

// The state with its request ended or dropped.
pub fn ended(s: State) -> State
    ensures { result ≡ with_control s (with_on s.control false) }
{
    let mut next = s;
    next.control.on = false;
    next
}

// The first bytes of a reply, `count` of them, become a descriptor.
fn keep(descriptor: &mut [u8], reply: &[u8], count: usize)
    requires { (count ≤ length reply.now) × (count ≤ length descriptor.old) }
    ensures { descriptor.new ≡ sets descriptor.old 0 (take count reply.now) }
{
    bus::put_all(descriptor, 0, &reply[..count]);
}

// A header's total length is asked for; no setup waits.
#[tactic(auto, using(crate::proofs::Laws::whole_asked))]
fn ask_whole(s: State, setups: &mut [u8; SETUP_BYTES], reply: &[u8]) -> State
    requires { (s.lengths.setups ≡ 0) × (4 ≤ length reply.now) }
    ensures { (d c : List ℕ) → P.Brings C.asks_whole s setups.old d reply.now c result setups.new d c }
{
    let total = u32::from(u16::from_le_bytes([reply[2], reply[3]]));
    record::put_setup(setups, 0, GET_CONFIGURATION, total * 0x1_0000);
    let mut next = s;
    next.lengths.setups = 1;
    next
}

// Set interface for each pair, behind the first setup.
fn push_pairs(setups: &mut [u8; SETUP_BYTES], pairs: &[Pair])
    requires { length pairs.now ≤ 256 }
    ensures { setups.new ≡ sets setups.old 8 (C.interface_setups (listed pairs.now)) }
{
    for (i, pair) in pairs.iter().enumerate() {
        let interface = pair.interface as u32;
        let alternate = pair.alternate as u32 * 0x1_0000;
        record::put_setup(setups, i + 1, SET_INTERFACE + alternate, interface);
    }
}

// The block and the channels after a configuration with this output size.
fn out_block(size: u32, old: OutBlock) -> OutBlock
    ensures { result ≡ out_block size old }
{
    if 32 < size {
        return OutBlock {
            block: size,
            channels: Audio::channels_in(size),
        };
    }
    old
}

// What the configuration asks for: the block, set configuration, and set interface for each pair; no setup waits.
fn choose(s: State, setups: &mut [u8; SETUP_BYTES], reply: &[u8]) -> State
    requires { (s.lengths.setups ≡ 0) × (s.control.got ≤ length reply.now) }
    ensures { (d c : List ℕ) → P.Brings C.chooses_by_reply s setups.old d reply.now c result setups.new d c }
{
    let got = s.control.got;
    let info = config::parse_config(&reply[..got]);
    let old = OutBlock {
        block: s.audio.block,
        channels: s.audio.channels,
    };
    let out = out_block(info.ob_out_packet, old);
    let pairs = info.pairs.as_slice();
    record::put_setup(setups, 0, SET_CONFIGURATION, 0);
    push_pairs(setups, pairs);
    let mut next = s;
    next.lengths.setups = 1 + pairs.len();
    next.audio.block = out.block;
    next.audio.channels = out.channels;
    next
}

// The fixed three: set configuration 1, and interfaces 1 and 2 at alternate 3; no setup waits.
fn fixed_setups(s: State, setups: &mut [u8; SETUP_BYTES]) -> State
    requires { s.lengths.setups ≡ 0 }
    ensures { (d p c : List ℕ) → P.Brings C.queues_fixed s setups.old d p c result setups.new d c }
{
    record::put_setup(setups, 0, SET_CONFIGURATION, 0);
    record::put_setup(setups, 1, SET_INTERFACE + 0x3_0000, 1);
    record::put_setup(setups, 2, SET_INTERFACE + 0x3_0000, 2);
    let mut next = s;
    next.lengths.setups = 3;
    next
}

// A configuration reply: nine bytes are a header, any other length is stored.
fn configuration(
    s: State,
    device_stack: bool,
    setups: &mut [u8; SETUP_BYTES],
    reply: &[u8],
    config: &mut [u8],
) -> State
    requires setups_value { (s.lengths.setups ≡ 0) × (s.control.got ≤ Sizes.REPLY) }
    requires in_bounds { (Sizes.REPLY ≤ length reply.now) × (Sizes.REPLY ≤ length config.old) }
    ensures { (d : List ℕ) → P.Brings (C.takes_configuration device_stack) s setups.old d reply.now config.old result setups.new d config.new }
{
    if s.control.got == HEADER {
        return ask_whole(s, setups, reply);
    }
    let count = s.control.got;
    keep(config, reply, count);
    let mut next = s;
    next.lengths.config = count;
    if device_stack {
        return choose(next, setups, reply);
    }
    fixed_setups(next, setups)
}

// A request that is done: descriptors are kept, and a configuration says what follows.
pub fn finished(
    s: State,
    device_stack: bool,
    setups: &mut [u8; SETUP_BYTES],
    device: &mut [u8; DEVICE],
    reply: &[u8],
    config: &mut [u8],
) -> State
    requires ready { P.Ready s × (s.control.got ≤ Sizes.REPLY) }
    requires in_bounds { (Sizes.REPLY ≤ length reply.now) × (Sizes.REPLY ≤ length config.old) }
    ensures { P.Brings (C.finishes device_stack) s setups.old device.old reply.now config.old result setups.new device.new config.new }
{
    let mut next = ended(s);
    let request = s.control;
    if asks_for(request, 1) {
        keep(device, reply, request.got);
        next.lengths.device = request.got;
        return next;
    }
    if asks_for(request, 2) {
        return configuration(next, device_stack, setups, reply, config);
    }
    next
}
