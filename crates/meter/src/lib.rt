// Entries for C, for measuring: the data of one transfer descriptor (dTD) moved in or out, in windows and areas of any lengths.
#![tactic(auto)]

ghost use Rattle.std.specs.Prelude.{Bool, ◌≡◌, ℕ, length};
ghost use Rattle.bus.specs.Memory.{shown};
ghost use Rattle.bus.specs.Steps.{exec};
ghost use Rattle.bus.specs.Stores.{bus, store};
ghost use Rattle.transfer.specs.Checked as C;
ghost use Rattle.meter.specs.Meter.{metered, metering, answered};

use bus::{PAGE, SRAM, View, Windows};
use transfer::{accept, accept_area, copy_in, copy_out, pointers_for};

// Copies the first total bytes of the dTD at td to the start of out; answers 0 or the number of its refusal.
#[tactic(auto, unfolding(crate::specs::Meter::metered, transfer::specs::Checked::checked_received, transfer::specs::Checked::refusal))]
#[unsafe(no_mangle)]
pub extern "C" fn meter_in(
    dynamic: &[u8],
    sram: &[u8],
    page: &[u8],
    td: u32,
    total: usize,
    out: &mut [u8],
) -> u8
    ensures { (result ≡ C.refusal (shown dynamic.now sram.now page.now) 0 total (length out.old)) × (out.new ≡ metered (shown dynamic.now sram.now page.now) td total out.old) }
{
    let view = match View::of(dynamic, sram, page) {
        Ok(view) => view,
        Err(refusal) => return refusal.number(),
    };
    if let Err(refusal) = accept_area(0, total, out.len()) {
        return refusal.number();
    }
    let pointers = pointers_for(view, td, total);
    copy_in(view, &pointers, total, out, 0);
    0
}

// Writes the first total bytes of source to the dTD at td; answers how many were dropped, or 65,536 times the number of its refusal.
#[tactic(auto, unfolding(crate::specs::Meter::metering, crate::specs::Meter::answered, crate::specs::Meter::packed, transfer::specs::Checked::checked_sending, transfer::specs::Checked::sent, bus::specs::Stores::when))]
#[unsafe(no_mangle)]
pub extern "C" fn meter_out(
    dynamic: &mut [u8],
    sram: &mut [u8],
    page: &mut [u8],
    td: u32,
    source: &[u8],
    total: usize,
) -> u32
    ensures { (result ≡ answered (shown dynamic.old sram.old page.old) td source.now total) × ((l : Bool) → bus (shown dynamic.new sram.new page.new) l ≡ exec store (metering td source.now total) (bus (shown dynamic.old sram.old page.old) l)) }
{
    if let Err(refusal) = accept(&*dynamic, &*sram, &*page, 0, total, source.len()) {
        return 0x1_0000 * u32::from(refusal.number());
    }
    let sram = sram.as_mut_array::<SRAM>().unwrap();
    let page = page.as_mut_array::<PAGE>().unwrap();
    let view = View {
        dynamic: &*dynamic,
        sram: &*sram,
        page: &*page,
    };
    let pointers = pointers_for(view, td, total);
    let mut windows = Windows {
        dynamic,
        sram,
        page,
    };
    copy_out(&mut windows, &pointers, source, total)
}
