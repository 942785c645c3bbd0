// The data of one transfer descriptor (dTD): its page pointers, the address of each byte, and the moves in and out, page by page.
#![tactic(auto)]

ghost use Rattle.std.specs.Prelude.{◌≡◌, ℕ, ◌+◌, ◌*◌, ◌/◌, ◌%◌, ◌<◌, ◌≤◌, Bool, length, OnOk};
ghost use Rattle.bits.specs.Pick.{pick};
ghost use Rattle.bus.specs.Windows.{viewed, memory_of, SameWindows};
ghost use Rattle.refusal.specs.Number.{number_of};
ghost use Rattle.bus.specs.Checked.{poked_of};
ghost use Rattle.bus.specs.Memory as M;
ghost use Rattle.bus.specs.Memory.{shown};
ghost use Rattle.bus.specs.Sized.{Sized, Accepted};
ghost use Rattle.bus.specs.Steps.{exec};
ghost use Rattle.bus.specs.Stores.{bus, store, Does};
ghost use Rattle.transfer.specs.Transfer as T;
ghost use Rattle.transfer.specs.Pages as P;
ghost use Rattle.transfer.specs.Checked as C;

use bus::{PAGE, Place, SRAM, View, Windows, locate};
use refusal::{Refusal, unless};

// The nine page pointers of the dTD at td.
#[tactic(auto, unfolding(crate::specs::Transfer::pointers, bus::specs::Memory::after))]
pub fn pointers(view: View<'_>, td: u32) -> [u32; 9]
    ensures { result ≡ T.pointers (viewed view.entry) td }
{
    std::array::from_fn(|i| view.peek32(td.wrapping_add(8 + 4 * (i as u32))))
}

// The page pointers that the first total bytes of the dTD at td use; an entry that is not read is 0.
#[tactic(auto, using(crate::proofs::PointerLoop::partial_first, crate::proofs::PointerLoop::partial_turn, crate::proofs::PointerLoop::partial_all), unfolding(bus::specs::Memory::after))]
pub fn pointers_for(view: View<'_>, td: u32, total: usize) -> [u32; 9]
    requires { total ≤ 32767 }
    ensures { result ≡ T.pointers_for (viewed view.entry) td total }
{
    let p0 = view.peek32(td.wrapping_add(8));
    let end = (p0 % 4096) as usize + total;
    let mut ps = [0u32; 9];
    ps[0] = p0;
    for i in 1..end / 4096 + 1 {
        ps[i] = view.peek32(td.wrapping_add(8 + 4 * (i as u32)));
    }
    ps
}

// Byte x of the page that p points to.
fn on_page(p: u32, x: usize) -> u32
    ensures { result ≡ p / 4096 * 4096 + x % 4096 }
{
    p / 4096 * 4096 + (x % 4096) as u32
}

// The address of byte k of a transfer.
#[tactic(auto, unfolding(crate::specs::Transfer::data_addr))]
pub fn data_addr(pointers: &[u32; 9], k: usize) -> u32
    requires { k ≤ 32766 }
    ensures { result ≡ T.data_addr pointers.now k }
{
    let x = (pointers[0] % 4096) as usize + k;
    on_page(pointers[x / 4096], x)
}

// Fills target with the bytes of memory from address a on, which lie in one page: no window ends inside one, so one test serves them all.
#[tactic(auto, using(crate::proofs::Runs::page_read, bus::proofs::Sizes::is_power_lem))]
fn page_in(view: View<'_>, a: u32, target: &mut [u8])
    requires { a % 4096 + length target.old ≤ 4096 }
    ensures { target.new ≡ P.run_in (viewed view.entry) a (length target.old) }
{
    let n = target.len();
    let View {
        dynamic,
        sram,
        page,
    } = view;
    match locate(dynamic.len(), a) {
        Place::Dynamic(i) => target.copy_from_slice(&dynamic[i..i + n]),
        Place::Static(i) => target.copy_from_slice(&sram[i..i + n]),
        Place::Page(i) => target.copy_from_slice(&page[i..i + n]),
        Place::Nowhere => target.fill(0),
    }
}

// Writes source to memory from address a on, in one page, and answers how many bytes were dropped.
#[tactic(auto, using(crate::proofs::Runs::page_written, crate::proofs::Runs::put_paste, crate::proofs::Runs::lost_at, bus::proofs::Sizes::is_power_lem), unfolding(bus::specs::Memory::lost))]
fn page_out(windows: &mut Windows<'_>, a: u32, source: &[u8]) -> u32
    requires { a % 4096 + length source.now ≤ 4096 }
    ensures left { memory_of windows.new ≡ P.run_out (memory_of windows.old) a source.now (length source.now) }
    ensures value { result ≡ length source.now * M.dropped8 a }
    ensures same { SameWindows windows.old windows.new }
{
    let n = source.len();
    match locate(windows.dynamic.len(), a) {
        Place::Dynamic(i) => {
            let dynamic = &mut *windows.dynamic;
            dynamic[i..i + n].copy_from_slice(source);
            0
        }
        Place::Static(i) => {
            let sram = &mut *windows.sram;
            sram[i..i + n].copy_from_slice(source);
            0
        }
        Place::Page(i) => {
            let page = &mut *windows.page;
            page[i..i + n].copy_from_slice(source);
            0
        }
        Place::Nowhere => n as u32,
    }
}

// How many of the left bytes lie in the page of address a.
fn run_of(a: u32, left: usize) -> usize
    ensures { (result ≤ left) × (a % 4096 + result ≤ 4096) × (0 < left → 0 < result) }
{
    let room = 4096 - (a % 4096) as usize;
    left.min(room)
}

// Fills out with the bytes of a transfer from byte start on.
#[tactic(auto, using(crate::proofs::Loops::partly_none, crate::proofs::Loops::from_run, crate::proofs::Loops::partly_length))]
pub fn copy_part(view: View<'_>, pointers: &[u32; 9], start: usize, out: &mut [u8])
    requires { start + length out.old ≤ 32767 }
    ensures { out.new ≡ T.bytes_from (viewed view.entry) pointers.now start (length out.old) }
{
    let total = out.len();
    let mut i = 0;
    while i < total {
        let a = data_addr(pointers, start + i);
        let n = run_of(a, total - i);
        page_in(view, a, &mut out[i..i + n]);
        i += n;
    }
}

// Copies the first n bytes of a transfer to out, from index at on.
#[tactic(auto, using(crate::proofs::Loops::part_received))]
pub fn copy_in(view: View<'_>, pointers: &[u32; 9], n: usize, out: &mut [u8], at: usize)
    requires n_bound { n ≤ 32767 }
    requires n_in_bounds { at + n ≤ length out.old }
    ensures { out.new ≡ T.received (viewed view.entry) pointers.now n out.old at }
{
    copy_part(view, pointers, 0, &mut out[at..at + n]);
}

// Writes the first n bytes of source to memory, and answers how many were dropped.
#[tactic(auto, using(crate::proofs::Loops::out_run, crate::proofs::Loops::dropped_run, crate::proofs::Laws::dropped_le), unfolding(crate::specs::Transfer::written, crate::specs::Transfer::dropped_out))]
pub fn copy_out(windows: &mut Windows<'_>, pointers: &[u32; 9], source: &[u8], n: usize) -> u32
    requires n_bound { n ≤ 32767 }
    requires n_in_bounds { n ≤ length source.now }
    ensures left { (l : Bool) → Does (T.sending pointers.now source.now n) (bus (memory_of windows.old) l) (bus (memory_of windows.new) l) result }
    ensures same { SameWindows windows.old windows.new }
{
    let mut lost: u32 = 0;
    let mut i = 0;
    while i < n {
        let a = data_addr(pointers, i);
        let run = run_of(a, n - i);
        let d = page_out(windows, a, &source[i..i + run]);
        lost += d;
        i += run;
    }
    lost
}

// Accepts n bytes from index at on of an area of size bytes: number 2 where it has not so many, or no transfer has.
pub fn accept_area(at: usize, n: usize, size: usize) -> Result<(), Refusal>
    ensures number { number_of result ≡ pick (C.fits at n size) 0 2 }
    ensures inside { OnOk result ((n ≤ 32767) × (at + n ≤ size)) }
{
    unless(n <= 32767, Refusal::Areas)?;
    unless(n <= size, Refusal::Areas)?;
    unless(at <= size - n, Refusal::Areas)
}

// Accepts a move of n bytes from index at on of an area of size bytes.
#[tactic(auto, using(crate::proofs::Checked::accepted), unfolding(crate::specs::Checked::refusal))]
pub fn accept(
    dynamic: &[u8],
    sram: &[u8],
    page: &[u8],
    at: usize,
    n: usize,
    size: usize,
) -> Result<(), Refusal>
    ensures number { number_of result ≡ C.refusal (shown dynamic.now sram.now page.now) at n size }
    ensures inside { OnOk result (Sized (shown dynamic.now sram.now page.now) × ((n ≤ 32767) × (at + n ≤ size))) }
    ensures windows { OnOk result (Accepted (shown dynamic.now sram.now page.now)) }
{
    bus::accept(dynamic, sram, page)?;
    accept_area(at, n, size)
}

// Copies the first n bytes of a transfer to out, from index at on, for windows and an area of any lengths. A refusal leaves out as it was.
#[tactic(auto, unfolding(crate::specs::Checked::checked_received, crate::specs::Checked::refusal))]
pub fn checked_copy_in(
    dynamic: &[u8],
    sram: &[u8],
    page: &[u8],
    pointers: &[u32; 9],
    n: usize,
    out: &mut [u8],
    at: usize,
) -> Result<(), Refusal>
    ensures { (number_of result ≡ C.refusal (shown dynamic.now sram.now page.now) at n (length out.old)) × (out.new ≡ C.checked_received (shown dynamic.now sram.now page.now) pointers.now n out.old at) }
{
    let view = View::of(dynamic, sram, page)?;
    accept_area(at, n, out.len())?;
    copy_in(view, pointers, n, out, at);
    Ok(())
}

// Fills out with the bytes of a transfer from byte start on, for windows and an area of any lengths. A refusal leaves out as it was.
#[tactic(auto, unfolding(crate::specs::Checked::checked_from, crate::specs::Checked::refusal))]
pub fn checked_copy_part(
    dynamic: &[u8],
    sram: &[u8],
    page: &[u8],
    pointers: &[u32; 9],
    start: usize,
    out: &mut [u8],
) -> Result<(), Refusal>
    ensures { (number_of result ≡ C.refusal (shown dynamic.now sram.now page.now) start (length out.old) 32767) × (out.new ≡ C.checked_from (shown dynamic.now sram.now page.now) pointers.now start out.old) }
{
    let view = View::of(dynamic, sram, page)?;
    accept_area(start, out.len(), 32767)?;
    copy_part(view, pointers, start, out);
    Ok(())
}

// Writes the first n bytes of source to windows of any lengths, and answers how many were dropped. A refusal leaves the windows as they were.
#[tactic(auto, unfolding(crate::specs::Checked::checked_sending, crate::specs::Checked::sent, bus::specs::Stores::when))]
pub fn checked_copy_out(
    dynamic: &mut [u8],
    sram: &mut [u8],
    page: &mut [u8],
    pointers: &[u32; 9],
    source: &[u8],
    n: usize,
) -> Result<u32, Refusal>
    ensures { (poked_of result ≡ C.sent (shown dynamic.old sram.old page.old) pointers.now source.now n) × ((l : Bool) → bus (shown dynamic.new sram.new page.new) l ≡ exec store (C.checked_sending pointers.now source.now n) (bus (shown dynamic.old sram.old page.old) l)) }
{
    accept(&*dynamic, &*sram, &*page, 0, n, source.len())?;
    let sram = sram.as_mut_array::<SRAM>().unwrap();
    let page = page.as_mut_array::<PAGE>().unwrap();
    let mut windows = Windows {
        dynamic,
        sram,
        page,
    };
    Ok(copy_out(&mut windows, pointers, source, n))
}
