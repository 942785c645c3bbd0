// The entries of `exports` as a static library: each symbol calls the entry of its name and states its clauses again.
#![tactic(auto)]

ghost use Rattle.std.specs.Prelude.{◌≡◌, ◌^◌, ◌≤◌, ◌<◌};
ghost use Rattle.bus.specs.Memory as M;
ghost use Rattle.bus.specs.Memory.{shown};
ghost use Rattle.bus.specs.Checked.{peeked, poked, kept};
ghost use Rattle.usbdev.specs.Access as Access;
ghost use Rattle.usbdev.specs.Registers.{registers};
ghost use Rattle.config.specs.Config.{parsed};
ghost use Rattle.config.specs.Table.{table_of};
ghost use Rattle.exports.specs.Answers as Answers;
ghost use Rattle.exports.specs.Send as Send;

// A device read of size bytes at an offset of the register page: refusal * 2^32 + value.
#[unsafe(no_mangle)]
pub extern "C" fn usb_device_read(page: &[u8], offset: u32, size: u32) -> u64
    ensures { result ≡ Answers.of_value (Access.reading page.now offset size) }
{
    exports::usb_device_read(page, offset, size)
}

// A device write; the line's flag goes in and comes out: refusal * 2^32 + flag.
#[unsafe(no_mangle)]
pub extern "C" fn usb_device_write(
    page: &mut [u8],
    offset: u32,
    size: u32,
    value: u32,
    line: bool,
) -> u64
    ensures { (result ≡ Answers.of_written (Access.writing (registers page.old line) offset size value)) × (page.new ≡ Access.written (registers page.old line) offset size value) }
{
    exports::usb_device_write(page, offset, size, value, line)
}

// The word at an address of the three windows: refusal * 2^32 + word.
#[unsafe(no_mangle)]
pub extern "C" fn usb_peek32(dynamic: &[u8], sram: &[u8], page: &[u8], address: u32) -> u64
    ensures { result ≡ Answers.of_peeked (peeked (shown dynamic.now sram.now page.now) (M.peek32 (shown dynamic.now sram.now page.now) address)) }
{
    exports::usb_peek32(dynamic, sram, page, address)
}

// Stores a word at an address of the three windows: refusal * 2^32 + bytes dropped.
#[unsafe(no_mangle)]
pub extern "C" fn usb_poke32(
    dynamic: &mut [u8],
    sram: &mut [u8],
    page: &mut [u8],
    address: u32,
    value: u32,
) -> u64
    ensures { (result ≡ Answers.of_poked (poked (shown dynamic.old sram.old page.old) (M.dropped32 address))) × (shown dynamic.new sram.new page.new ≡ kept (shown dynamic.old sram.old page.old) (M.poke32 (shown dynamic.old sram.old page.old) address value)) }
{
    exports::usb_poke32(dynamic, sram, page, address, value)
}

// The interface choice of any bytes: pairs * 2^32 + output size * 2^16 + input size, and the pairs in two arrays, zero past the last.
#[unsafe(no_mangle)]
pub extern "C" fn usb_parse_config(
    bytes: &[u8],
    interfaces: &mut [u8; 256],
    alternates: &mut [u8; 256],
) -> u64
    ensures { (result ≡ Answers.of_config (table_of (parsed bytes.now))) × ((interfaces.new ≡ (table_of (parsed bytes.now)).interfaces) × (alternates.new ≡ (table_of (parsed bytes.now)).alternates)) }
{
    exports::usb_parse_config(bytes, interfaces, alternates)
}

// The packets of bytes behind the held ones of a queue: refusal (8, 5 or 7, tested in this order) * 2^56 + held * 2^40 + packer. A new packer is 0, and an answer is the next.
#[unsafe(no_mangle)]
pub extern "C" fn usb_midi_send(
    packer: u64,
    cable: u8,
    bytes: &[u8],
    queue: &mut [u8; midi::QUEUE],
    held: u16,
) -> u64
    ensures { (result ≡ Answers.of_sent (Send.midi_sent cable (Answers.packer_of packer) bytes.now held)) × (queue.new ≡ Send.midi_queue cable (Answers.packer_of packer) bytes.now held queue.old) }
{
    exports::usb_midi_send(packer, cable, bytes, queue, held)
}
