// The arrays that a run works on: the record's own queues, the windows, and the areas that its calls are lent.

// Bytes of the longest dynamic memory.
pub const DYNAMIC: usize = 1_048_576;

// Bytes of the longest byte string that a line holds.
pub const BYTES: usize = 32_768;

// All of them are zero at a run's start; the first bytes of `dynamic` and the first words of `sending` are the run's. `bytes` are those of a line that sends.
#[derive(Drop)]
pub struct Areas {
    pub setups: [u8; record::SETUP_BYTES],
    pub midi: [u8; record::QUEUE],
    pub serial: [u8; record::QUEUE],
    pub device: [u8; record::DEVICE],
    pub dynamic: [u8; DYNAMIC],
    pub sram: [u8; bus::SRAM],
    pub page: [u8; bus::PAGE],
    pub reply: [u8; record::REPLY],
    pub config: [u8; record::REPLY],
    pub receive: [u8; record::RECEIVE],
    pub cables: [u8; record::RECEIVE],
    pub received: [u32; record::RING],
    pub sending: [u32; record::RING],
    pub bytes: [u8; BYTES],
}

// How much a run may have written of the long ones: bytes of dynamic memory, of the receive area and so of that of cables, words of the two rings.
#[derive(Clone, Copy)]
pub(crate) struct Used {
    pub dynamic: usize,
    pub receive: usize,
    pub received: usize,
    pub sending: usize,
}

// The first `count` of something, or all of it.
pub(crate) fn first<T>(items: &[T], count: usize) -> &[T] {
    &items[..count.min(items.len())]
}

// The same to be written.
pub(crate) fn first_mut<T>(items: &mut [T], count: usize) -> &mut [T] {
    let count = count.min(items.len());
    &mut items[..count]
}

impl Areas {
    // What they are at a run's start.
    pub const ZERO: Areas = Areas {
        setups: [0; record::SETUP_BYTES],
        midi: [0; record::QUEUE],
        serial: [0; record::QUEUE],
        device: [0; record::DEVICE],
        dynamic: [0; DYNAMIC],
        sram: [0; bus::SRAM],
        page: [0; bus::PAGE],
        reply: [0; record::REPLY],
        config: [0; record::REPLY],
        receive: [0; record::RECEIVE],
        cables: [0; record::RECEIVE],
        received: [0; record::RING],
        sending: [0; record::RING],
        bytes: [0; BYTES],
    };

    // Zeros wherever a run that used so much may have written.
    pub(crate) fn clear(&mut self, used: Used) {
        self.setups.fill(0);
        self.midi.fill(0);
        self.serial.fill(0);
        self.device.fill(0);
        self.sram.fill(0);
        self.page.fill(0);
        self.reply.fill(0);
        self.config.fill(0);
        first_mut(&mut self.dynamic, used.dynamic).fill(0);
        first_mut(&mut self.receive, used.receive).fill(0);
        first_mut(&mut self.cables, used.receive).fill(0);
        first_mut(&mut self.received, used.received).fill(0);
        first_mut(&mut self.sending, used.sending).fill(0);
    }
}
