// The arrays of the record and the areas that a microframe is lent, beside the windows, each as long as it must be.

ghost use Rattle.std.specs.Prelude.{◌≡◌, ◌≤◌, length};
ghost use Rattle.record.specs.Sizes as Sizes;

use record::{DEVICE, QUEUE, RING, SETUP_BYTES};

#[derive(Drop)]
pub struct Areas<'a> {
    pub setups: &'a mut [u8; SETUP_BYTES],
    pub midi: &'a mut [u8; QUEUE],
    pub serial: &'a mut [u8; QUEUE],
    pub device: &'a mut [u8; DEVICE],
    pub reply: &'a mut [u8],
    pub config: &'a mut [u8],
    pub receive: &'a mut [u8],
    pub cables: &'a mut [u8],
    pub received: &'a mut [u32; RING],
    pub sending: &'a [u32],
    ghost reply_long: { Sizes.REPLY ≤ length reply.now },
    ghost config_long: { Sizes.REPLY ≤ length config.now },
    ghost receive_long: { Sizes.RECEIVE ≤ length receive.now },
    ghost cables_long: { Sizes.RECEIVE ≤ length cables.now },
}
