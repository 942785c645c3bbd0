// The entries of `meter` as a static library: each symbol calls the entry of its name and states its clauses again.
#![tactic(auto)]

ghost use Rattle.std.specs.Prelude.{Bool, ◌≡◌, ℕ, length};
ghost use Rattle.bus.specs.Memory.{shown};
ghost use Rattle.bus.specs.Steps.{exec};
ghost use Rattle.bus.specs.Stores.{bus, store};
ghost use Rattle.transfer.specs.Checked as C;
ghost use Rattle.meter.specs.Meter.{metered, metering, answered};

// Copies the first total bytes of the dTD at td to the start of out; answers 0 or the number of its refusal.
#[unsafe(no_mangle)]
pub extern "C" fn meter_in(
    dynamic: &[u8],
    sram: &[u8],
    page: &[u8],
    td: u32,
    total: usize,
    out: &mut [u8],
) -> u8
    ensures { (result ≡ C.refusal (shown dynamic.now sram.now page.now) 0 total (length out.old)) × (out.new ≡ metered (shown dynamic.now sram.now page.now) td total out.old) }
{
    meter::meter_in(dynamic, sram, page, td, total, out)
}

// Writes the first total bytes of source to the dTD at td; answers how many were dropped, or 65,536 times the number of its refusal.
#[unsafe(no_mangle)]
pub extern "C" fn meter_out(
    dynamic: &mut [u8],
    sram: &mut [u8],
    page: &mut [u8],
    td: u32,
    source: &[u8],
    total: usize,
) -> u32
    ensures { (result ≡ answered (shown dynamic.old sram.old page.old) td source.now total) × ((l : Bool) → bus (shown dynamic.new sram.new page.new) l ≡ exec store (metering td source.now total) (bus (shown dynamic.old sram.old page.old) l)) }
{
    meter::meter_out(dynamic, sram, page, td, source, total)
}
