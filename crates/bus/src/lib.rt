// The three windows of memory: reads and writes of bytes and of big-endian words; items stored in an area.
#![tactic(auto)]

ghost use Rattle.std.specs.Prelude.{◌≡◌, ℕ, ◌+◌, ◌≤◌, length, OnOk};
ghost use Rattle.bits.specs.Pick.{pick};
ghost use Rattle.refusal.specs.declared.Refusal.TheVariants.{Windows as Refusal·Windows};
ghost use Rattle.std.proofs.lemmas.List.Edits.{sets};
ghost use Rattle.bus.specs.Memory as M;
ghost use Rattle.bus.specs.Memory.{shown};
ghost use Rattle.bus.specs.Sized.{Power, PageFits, Accepted, is_power, is_sized};
ghost use Rattle.bus.specs.Words as W;
ghost use Rattle.bus.specs.Checked.{peeked, poked, peeked_of, poked_of, kept};

mod windows;

pub use crate::windows::{View, Windows};
use refusal::Refusal;

// Bytes of static memory and of the register page.
pub const SRAM: usize = 65_536;

pub const PAGE: usize = 4096;

// Where an address leads: a byte of one of the windows, or nowhere.
#[derive(Clone, Copy)]
pub enum Place {
    Dynamic(usize),
    Static(usize),
    Page(usize),
    Nowhere,
}

// Where address a leads if dynamic memory has n bytes.
#[tactic(auto, using(crate::proofs::Places::masked), unfolding(crate::specs::Memory::place))]
pub fn locate(n: usize, a: u32) -> Place
    requires { Power n }
    ensures place { result ≡ M.place n a }
    ensures fits { PageFits n a result }
{
    if a < 0x4000_0000 {
        return Place::Nowhere;
    }
    if a < 0x8000_0000 {
        let mask = n - 1;
        return Place::Dynamic((a as usize) & mask);
    }
    if a < 0x8C00_0000 {
        return Place::Static((a as usize) % SRAM);
    }
    if a < 0xFC0B_0000 {
        return Place::Nowhere;
    }
    if a < 0xFC0B_1000 {
        let o = (a - 0xFC0B_0000) as usize;
        return Place::Page(o);
    }
    Place::Nowhere
}

// Four bytes as a big-endian word.
#[tactic(auto, unfolding(crate::specs::Memory::word))]
pub fn word(b0: u8, b1: u8, b2: u8, b3: u8) -> u32
    ensures { result ≡ M.word b0 b1 b2 b3 }
{
    u32::from(b0) * 0x100_0000 + u32::from(b1) * 0x1_0000 + u32::from(b2) * 0x100 + u32::from(b3)
}

// The word at index i of one window; a register is one of the page.
#[tactic(auto, unfolding(crate::specs::Words::word_at))]
pub fn word_at(s: &[u8], i: usize) -> u32
    requires { i + 4 ≤ length s.now }
    ensures { result ≡ W.word_at s.now i }
{
    word(s[i], s[i + 1], s[i + 2], s[i + 3])
}

// Stores v at index i of one window.
#[tactic(auto, unfolding(crate::specs::Words::word_put))]
pub fn put_at(s: &mut [u8], i: usize, v: u32)
    requires { i + 4 ≤ length s.old }
    ensures { s.new ≡ W.word_put s.old i v }
{
    s[i] = (v / 0x100_0000) as u8;
    s[i + 1] = (v / 0x1_0000 % 256) as u8;
    s[i + 2] = (v / 0x100 % 256) as u8;
    s[i + 3] = (v % 256) as u8;
}

// Whether n is a power of two from 4,096 to 67,108,864.
#[tactic(auto, unfolding(crate::specs::Sized::is_power))]
pub fn power(n: usize) -> bool
    ensures { result ≡ is_power n }
{
    if n < 4096 {
        return false;
    }
    if 0x400_0000 < n {
        return false;
    }
    n & (n - 1) == 0
}

// Whether the windows are as long as they must be: number 1 is given where not.
#[tactic(auto, unfolding(crate::specs::Sized::is_sized))]
pub fn sized(dynamic: &[u8], sram: &[u8], page: &[u8]) -> bool
    ensures { result ≡ is_sized (shown dynamic.now sram.now page.now) }
{
    if sram.len() != SRAM {
        return false;
    }
    if page.len() != PAGE {
        return false;
    }
    power(dynamic.len())
}

// Accepts windows that are as long as they must be.
#[tactic(auto, using(crate::proofs::Sizes::accepted))]
pub fn accept(dynamic: &[u8], sram: &[u8], page: &[u8]) -> Result<(), Refusal>
    ensures tested { result ≡ pick (is_sized (shown dynamic.now sram.now page.now)) (Ok tt) (Err Refusal·Windows) }
    ensures fits { OnOk result (Accepted (shown dynamic.now sram.now page.now)) }
{
    refusal::unless(sized(dynamic, sram, page), Refusal::Windows)
}

// The byte at address a of windows of any lengths.
pub fn checked_peek8(dynamic: &[u8], sram: &[u8], page: &[u8], a: u32) -> Result<u8, Refusal>
    ensures { peeked_of result ≡ peeked (shown dynamic.now sram.now page.now) (M.peek8 (shown dynamic.now sram.now page.now) a) }
{
    Ok(View::of(dynamic, sram, page)?.peek8(a))
}

// The word at address a of windows of any lengths.
pub fn checked_peek32(dynamic: &[u8], sram: &[u8], page: &[u8], a: u32) -> Result<u32, Refusal>
    ensures { peeked_of result ≡ peeked (shown dynamic.now sram.now page.now) (M.peek32 (shown dynamic.now sram.now page.now) a) }
{
    Ok(View::of(dynamic, sram, page)?.peek32(a))
}

// Stores the byte v at address a of windows of any lengths, and answers how many bytes were dropped.
pub fn checked_poke8(
    dynamic: &mut [u8],
    sram: &mut [u8],
    page: &mut [u8],
    a: u32,
    v: u8,
) -> Result<u32, Refusal>
    ensures { (poked_of result ≡ poked (shown dynamic.old sram.old page.old) (M.dropped8 a)) × (shown dynamic.new sram.new page.new ≡ kept (shown dynamic.old sram.old page.old) (M.poke8 (shown dynamic.old sram.old page.old) a v)) }
{
    accept(&*dynamic, &*sram, &*page)?;
    let sram = sram.as_mut_array::<SRAM>().unwrap();
    let page = page.as_mut_array::<PAGE>().unwrap();
    let mut windows = Windows {
        dynamic,
        sram,
        page,
    };
    Ok(windows.poke8(a, v))
}

// Stores the word v at address a of windows of any lengths, and answers how many bytes were dropped.
pub fn checked_poke32(
    dynamic: &mut [u8],
    sram: &mut [u8],
    page: &mut [u8],
    a: u32,
    v: u32,
) -> Result<u32, Refusal>
    ensures { (poked_of result ≡ poked (shown dynamic.old sram.old page.old) (M.dropped32 a)) × (shown dynamic.new sram.new page.new ≡ kept (shown dynamic.old sram.old page.old) (M.poke32 (shown dynamic.old sram.old page.old) a v)) }
{
    accept(&*dynamic, &*sram, &*page)?;
    let sram = sram.as_mut_array::<SRAM>().unwrap();
    let page = page.as_mut_array::<PAGE>().unwrap();
    let mut windows = Windows {
        dynamic,
        sram,
        page,
    };
    Ok(windows.poke32(a, v))
}

// Stores items in an area, from a place on.
#[tactic(auto, using(bits::proofs::Lists::put_sets))]
pub fn put_all<T: Copy>(area: &mut [T], at: usize, source: &[T])
    requires { at + length source.now ≤ length area.old }
    ensures { area.new ≡ sets area.old at source.now }
{
    let end = at + source.len();
    area[at..end].copy_from_slice(source);
}
