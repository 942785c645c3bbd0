// The lines of a run script that go through the three memory windows: stores, fills and looks. A bad line has no answer, and stores nothing.
ghost use Rattle.std.specs.Prelude.{◌≡◌, ◌+◌, ◌*◌, ◌≤◌, ◌%◌, ◌⊎◌, length, IsSome, IsSomeAnd, IfSome};
ghost use Rattle.bus.specs.Memory.{shown};
ghost use Rattle.script.specs.Kept.{Unsized};
ghost use Rattle.script.specs.Line.{second};
ghost use Rattle.stdio.specs.Behind.{Behind};

use crate::answers;
use crate::words::{self, Words};
use bus::{PAGE, SRAM, View, Windows};
use stdio::Output;

// The byte of two digits that were looked at.
fn byte(high: u8, low: u8) -> u8 {
    words::byte(high, low).unwrap_or(0)
}

// Stores the bytes of some digits from the address `a` on, one by one; those outside the windows are dropped.
fn poke_digits(windows: &mut Windows<'_>, a: u32, digits: &[u8]) {
    let mut address = a;
    for i in 0..digits.len() / 2 {
        let value = byte(digits[2 * i], digits[2 * i + 1]);
        windows.poke8(address, value);
        address = address.wrapping_add(1);
    }
}

// Where `count` bytes from the address `a` on stand in a window of `length` bytes that begins at `base`, if they all do.
fn place_in(length: usize, base: u32, a: u32, count: usize) -> Option<usize>
    ensures { IfSome result (λ place. place + count ≤ length) }
{
    let place = a.checked_sub(base)? as usize;
    if place <= length && count <= length - place {
        Some(place)
    } else {
        None
    }
}

// Stores the bytes of some digits from the address `a` on: at once where they lie together in dynamic memory or on the page.
fn store(windows: &mut Windows<'_>, a: u32, digits: &[u8])
    requires { length digits.now % 2 ≡ 0 }
{
    let count = digits.len() / 2;
    if let Some(place) = place_in(windows.dynamic.len(), 0x4000_0000, a, count) {
        let dynamic = &mut *windows.dynamic;
        words::put_tested(&mut dynamic[place..place + count], digits);
        return;
    }
    if let Some(place) = place_in(PAGE, 0xFC0B_0000, a, count) {
        let page = &mut *windows.page;
        words::put_tested(&mut page[place..place + count], digits);
        return;
    }
    poke_digits(windows, a, digits);
}

// `w ADDR BYTES`; windows of wrong lengths stay as they are.
pub fn store_line(line: &[u8], dynamic: &mut [u8], sram: &mut [u8], page: &mut [u8]) -> Option<()>
    ensures { Unsized (shown dynamic.old sram.old page.old) (shown dynamic.new sram.new page.new) }
{
    let mut words = Words::new(line);
    let a = words.word()?;
    let digits = words.digits()?;
    if let Ok(()) = bus::accept(&*dynamic, &*sram, &*page) {
        let sram = sram.as_mut_array::<SRAM>().unwrap();
        let page = page.as_mut_array::<PAGE>().unwrap();
        let mut windows = Windows {
            dynamic,
            sram,
            page,
        };
        store(&mut windows, a, digits);
    }
    Some(())
}

// `count` bytes of one value from the address `a` on.
fn fill(windows: &mut Windows<'_>, a: u32, count: u32, value: u8) {
    for i in 0..count {
        windows.poke8(a.wrapping_add(i), value);
    }
}

// `f ADDR COUNT VALUE`; windows of wrong lengths stay as they are.
pub fn fill_line(line: &[u8], dynamic: &mut [u8], sram: &mut [u8], page: &mut [u8]) -> Option<()>
    ensures { Unsized (shown dynamic.old sram.old page.old) (shown dynamic.new sram.new page.new) }
{
    let mut words = Words::new(line);
    let a = words.word()?;
    let count = words.word()?;
    let value = u8::try_from(words.word()?).ok()?;
    words.end()?;
    if let Ok(()) = bus::accept(&*dynamic, &*sram, &*page) {
        let sram = sram.as_mut_array::<SRAM>().unwrap();
        let page = page.as_mut_array::<PAGE>().unwrap();
        let mut windows = Windows {
            dynamic,
            sram,
            page,
        };
        fill(&mut windows, a, count, value);
    }
    Some(())
}

// `count` bytes as they are seen from the address `a` on: 0 in windows of wrong lengths.
fn show(dynamic: &[u8], sram: &[u8], page: &[u8], a: u32, count: u32, out: &mut Output)
    ensures { Behind (2 * count) out.old out.new }
{
    let view = View::of(dynamic, sram, page).ok();
    for i in 0..count {
        let seen = match view {
            Some(view) => view.peek8(a.wrapping_add(i)),
            None => 0,
        };
        answers::pair(out, seen);
    }
}

// `p ADDR COUNT`: bytes as they are seen; at most 8,192 of them.
pub fn look_line(
    line: &[u8],
    dynamic: &[u8],
    sram: &[u8],
    page: &[u8],
    out: &mut Output,
) -> Option<()>
    ensures { IsSome result → IsSomeAnd (second line.now) (λ count. count ≤ 8192) }
{
    let mut words = Words::new(line);
    let a = words.word()?;
    let count = words.word()?;
    words.end()?;
    if 8192 < count {
        return None;
    }
    if count == 0 {
        out.append(b"p -");
    } else {
        out.append(b"p ");
    }
    show(dynamic, sram, page, a, count, out);
    out.put(b'\n');
    Some(())
}

// A line of one of these letters; any other is a bad one.
pub fn line(
    letter: u8,
    line: &[u8],
    dynamic: &mut [u8],
    sram: &mut [u8],
    page: &mut [u8],
    out: &mut Output,
) -> Option<()>
    ensures letters { IsSome result → (letter ≡ 119) ⊎ ((letter ≡ 102) ⊎ (letter ≡ 112)) }
    ensures wrong { Unsized (shown dynamic.old sram.old page.old) (shown dynamic.new sram.new page.new) }
    ensures looked { letter ≡ 112 → shown dynamic.new sram.new page.new ≡ shown dynamic.old sram.old page.old }
{
    match letter {
        b'w' => store_line(line, dynamic, sram, page),
        b'f' => fill_line(line, dynamic, sram, page),
        b'p' => look_line(line, &*dynamic, &*sram, &*page, out),
        _ => None,
    }
}
