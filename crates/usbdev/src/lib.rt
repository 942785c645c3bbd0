// The register page of the USB controller: what the device reads and writes, the interrupt line, and `raise`.
#![tactic(auto)]

ghost use Rattle.std.specs.Prelude.{◌≡◌, ◌+◌, ◌≤◌, Bool, true, false};
ghost use Rattle.usbdev.specs.Answers.{value_of, written_of};
ghost use Rattle.usbdev.specs.Registers as R;
ghost use Rattle.usbdev.specs.Registers.{registers};
ghost use Rattle.usbdev.specs.Access as Access;
ghost use Rattle.usbdev.specs.Transfer as T;
ghost use Rattle.usbdev.specs.Checked as C;
ghost use Rattle.bus.specs.Sized as Sizes;

use bus::{PAGE, put_at, word_at};
use refusal::Refusal;

pub const USBCMD: usize = 0x140;

pub const USBSTS: usize = 0x144;

pub const USBINTR: usize = 0x148;

pub const FRINDEX: usize = 0x14C;

pub const EPLISTADDR: usize = 0x158;

pub const EPNAK: usize = 0x178;

pub const PORTSC1: usize = 0x184;

pub const OTGSC: usize = 0x1A4;

pub const EPSETUPSR: usize = 0x1AC;

pub const EPPRIME: usize = 0x1B0;

pub const EPFLUSH: usize = 0x1B4;

pub const EPSR: usize = 0x1B8;

pub const EPCOMPLETE: usize = 0x1BC;

pub const EPCR0: usize = 0x1C0;

// The interrupt line: an enabled USBSTS bit, or an enabled OTGSC status bit.
#[tactic(auto, unfolding(crate::specs::Registers::line_of))]
pub fn line(page: &[u8; PAGE]) -> bool
    ensures { result ≡ R.line_of page.now }
{
    if bits::any(word_at(page, USBSTS), word_at(page, USBINTR)) {
        return true;
    }
    let otg = word_at(page, OTGSC);
    bits::any((otg >> 16) & (otg >> 24), 0x7F)
}

// Sets bits of USBSTS; the line's flag goes in and follows the line.
#[tactic(auto, unfolding(bus::specs::Steps::and_then, crate::specs::Registers::store, crate::specs::Registers::setting, crate::specs::Registers::following))]
pub fn raise(page: &mut [u8; PAGE], sts: u32, flag: bool) -> bool
    ensures { registers page.new result ≡ R.done (R.raising sts) (registers page.old flag) }
{
    let old = word_at(&*page, USBSTS);
    put_at(page, USBSTS, bits::set(old, sts));
    line(&*page)
}

// Whether an access of `size` bytes at `off` lies aligned and whole in the page.
#[tactic(auto, using(crate::proofs::Laws::within), unfolding(crate::specs::Access::fits))]
fn fits(off: u32, size: u32) -> bool
    ensures value { result ≡ Access.fits off size }
    ensures inside { result ≡ true → (off + size ≤ Sizes.PAGE) × (1 ≤ size) }
{
    match size {
        1 => off <= 4095,
        2 => (off % 2 == 0) & (off <= 4094),
        4 => (off % 4 == 0) & (off <= 4092),
        _ => false,
    }
}

#[tactic(auto, unfolding(crate::specs::Access::half_at))]
fn half_at(page: &[u8; PAGE], off: usize) -> u32
    requires { off + 2 ≤ Sizes.PAGE }
    ensures { result ≡ Access.half_at page.now off }
{
    u32::from(u16::from_be_bytes([page[off], page[off + 1]]))
}

// A four-byte read.
#[tactic(auto, unfolding(crate::specs::Access::read_word))]
fn read_word(page: &[u8; PAGE], off: usize) -> u32
    requires { off + 4 ≤ Sizes.PAGE }
    ensures { result ≡ Access.read_word page.now off }
{
    match off {
        EPPRIME | EPFLUSH => 0,
        USBCMD => bits::clear(word_at(page, USBCMD), 2),
        _ => word_at(page, off),
    }
}

// An accepted read.
#[tactic(auto, unfolding(crate::specs::Access::read_sized))]
fn read_sized(page: &[u8; PAGE], off: usize, size: u32) -> u32
    requires { (off + size ≤ Sizes.PAGE) × (1 ≤ size) }
    ensures { result ≡ Access.read_sized page.now off size }
{
    match size {
        4 => read_word(page, off),
        2 => half_at(page, off),
        _ => u32::from(page[off]),
    }
}

// What a device read of `size` bytes at `off` gives.
#[tactic(auto, unfolding(crate::specs::Access::refusal, crate::specs::Access::reading))]
pub fn read(page: &[u8], off: u32, size: u32) -> Result<u32, Refusal>
    ensures { value_of result ≡ Access.reading page.now off size }
{
    let page = page.as_array::<PAGE>().ok_or(Refusal::Windows)?;
    if !fits(off, size) {
        return Err(Refusal::Access);
    }
    Ok(read_sized(page, off as usize, size))
}

// Stores what a four-byte write lists, or the word as it is; whether it was listed.
#[tactic(auto, using(crate::proofs::Laws::clears, crate::proofs::Laws::clears_not), unfolding(crate::specs::Access::listed, crate::specs::Access::listing, crate::specs::Registers::store))]
fn put_listed(page: &mut [u8; PAGE], off: usize, v: u32) -> bool
    requires { off + 4 ≤ Sizes.PAGE }
    ensures value { result ≡ Access.listed off }
    ensures left { (l : Bool) → registers page.new l ≡ R.done (Access.listing off v) (registers page.old l) }
{
    match off {
        USBSTS | EPNAK | EPSETUPSR | EPCOMPLETE => {
            let keep = word_at(&*page, off);
            put_at(page, off, bits::clear(keep, v));
            true
        }
        OTGSC => {
            let keep = word_at(&*page, OTGSC);
            put_at(page, OTGSC, written_otgsc(keep, v));
            true
        }
        EPFLUSH => {
            let ready = word_at(&*page, EPSR);
            put_at(page, EPFLUSH, 0);
            put_at(page, EPSR, bits::clear(ready, v));
            true
        }
        EPPRIME => {
            let ready = word_at(&*page, EPSR);
            put_at(page, EPPRIME, 0);
            put_at(page, EPSR, bits::set(ready, v));
            true
        }
        USBCMD => {
            put_at(page, USBCMD, bits::clear(v, 2));
            true
        }
        _ => {
            put_at(page, off, v);
            false
        }
    }
}

// OTGSC after the device writes `v` over `keep`.
fn written_otgsc(keep: u32, v: u32) -> u32
    ensures { result ≡ Access.otgsc keep v }
{
    (v & !0x007F_7F00) | (keep & 0x0000_7F00) | (keep & 0x007F_0000 & !v)
}

// A four-byte write.
#[tactic(auto, using(crate::proofs::Laws::done_then), unfolding(crate::specs::Access::writing_word, crate::specs::Registers::following, crate::specs::Registers::store))]
fn write_word(page: &mut [u8; PAGE], off: usize, v: u32, flag: bool) -> bool
    requires { off + 4 ≤ Sizes.PAGE }
    ensures { registers page.new result ≡ R.done (Access.writing_word off v) (registers page.old flag) }
{
    if put_listed(page, off, v) {
        return line(&*page);
    }
    flag
}

#[tactic(auto, unfolding(crate::specs::Access::half_put))]
fn put_half(page: &mut [u8; PAGE], off: usize, v: u32)
    requires { off + 2 ≤ Sizes.PAGE }
    ensures { page.new ≡ Access.half_put page.old off v }
{
    bus::put_all(page, off, &((v % 0x1_0000) as u16).to_be_bytes());
}

// An accepted write.
#[tactic(auto, unfolding(crate::specs::Access::write_sized))]
fn write_sized(page: &mut [u8; PAGE], off: usize, size: u32, v: u32, flag: bool) -> bool
    requires { (off + size ≤ Sizes.PAGE) × (1 ≤ size) }
    ensures { registers page.new result ≡ Access.write_sized (registers page.old flag) off size v }
{
    match size {
        4 => write_word(page, off, v, flag),
        2 => {
            put_half(page, off, v);
            flag
        }
        _ => {
            page[off] = (v % 256) as u8;
            flag
        }
    }
}

// A device write of `size` bytes at `off`; the line's flag goes in and comes out. A refusal leaves the flag and the page.
#[tactic(auto, unfolding(crate::specs::Access::refusal, crate::specs::Access::writing, crate::specs::Access::written))]
pub fn write(page: &mut [u8], off: u32, size: u32, v: u32, flag: bool) -> Result<bool, Refusal>
    ensures { (written_of flag result ≡ Access.writing (registers page.old flag) off size v) × (page.new ≡ Access.written (registers page.old flag) off size v) }
{
    let page = page.as_mut_array::<PAGE>().ok_or(Refusal::Windows)?;
    if !fits(off, size) {
        return Err(Refusal::Access);
    }
    Ok(write_sized(page, off as usize, size, v, flag))
}

// FRINDEX after one more call at a step of the bus speed.
#[tactic(auto, unfolding(crate::specs::Transfer::next_frindex))]
pub fn next_frindex(fr: u32, step: u32) -> u32
    ensures { result ≡ T.next_frindex step fr }
{
    fr.wrapping_add(step) % 0x4000
}

// The bytes that a token's descriptor is still to move.
#[tactic(auto, unfolding(crate::specs::Transfer::total_of))]
pub fn total(tok: u32) -> u32
    ensures { result ≡ T.total_of tok }
{
    (tok >> 16) & 0x7FFF
}

// A token once `n` bytes of its total have moved; more than the total leave none.
#[tactic(auto, unfolding(crate::specs::Transfer::token_after))]
pub fn token_after(tok: u32, n: u32) -> u32
    ensures { result ≡ T.token_after tok n }
{
    let left = total(tok).saturating_sub(n);
    (tok & !0x7FFF_0000 & !0xFF) | (left << 16)
}

// The interrupt line of a page of any length.
pub fn checked_line(page: &[u8]) -> Result<bool, Refusal>
    ensures { written_of false result ≡ C.lined page.now }
{
    let page = page.as_array::<PAGE>().ok_or(Refusal::Windows)?;
    Ok(line(page))
}

// Sets bits of USBSTS on a page of any length; the line's flag goes in and follows the line. A refusal leaves the flag and the page.
pub fn checked_raise(page: &mut [u8], sts: u32, flag: bool) -> Result<bool, Refusal>
    ensures { (written_of flag result ≡ C.raised sts (registers page.old flag)) × (page.new ≡ C.raised_page sts (registers page.old flag)) }
{
    let page = page.as_mut_array::<PAGE>().ok_or(Refusal::Windows)?;
    Ok(raise(page, sts, flag))
}
