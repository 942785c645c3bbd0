// The three windows of memory as one value: to read, and to read and write.

ghost use Rattle.std.specs.Prelude.{◌≡◌, true, length};
ghost use Rattle.bus.specs.Memory as M;
ghost use Rattle.bus.specs.Sized.{is_power};
ghost use Rattle.bus.specs.Sized as S;

use crate::{PAGE, Place, SRAM, accept, locate, put_at, word, word_at};
use refusal::Refusal;

// The three windows to read: what dynamic memory's length may be is a fact about the value, and the other two are arrays.
#[derive(Clone, Copy)]
pub struct View<'a> {
    pub dynamic: &'a [u8],
    pub sram: &'a [u8; SRAM],
    pub page: &'a [u8; PAGE],
    ghost power: { is_power (length dynamic.now) ≡ true },
    ghost sram_length: { length sram.now ≡ S.SRAM },
    ghost page_length: { length page.now ≡ S.PAGE },
}

impl<'a> View<'a> {
    ghost use Rattle.bus.specs.Windows.{viewed, Views};

    // Windows of any lengths, where these are as they must be: number 1 where not.
    pub fn of(dynamic: &'a [u8], sram: &'a [u8], page: &'a [u8]) -> Result<View<'a>, Refusal>
        ensures { Views (M.shown dynamic.entry.now sram.entry.now page.entry.now) result }
    {
        accept(dynamic, sram, page)?;
        let sram = sram.as_array::<SRAM>().unwrap();
        let page = page.as_array::<PAGE>().unwrap();
        Ok(View {
            dynamic,
            sram,
            page,
        })
    }

    // The byte at address a.
    #[tactic(auto, using(crate::proofs::Places::peek_at, crate::proofs::Sizes::is_power_lem), unfolding(crate::specs::Memory::at, crate::specs::Memory::read))]
    pub fn peek8(self, a: u32) -> u8
        ensures { result ≡ M.peek8 (viewed self.entry) a }
    {
        match locate(self.dynamic.len(), a) {
            Place::Dynamic(i) => self.dynamic[i],
            Place::Static(i) => self.sram[i],
            Place::Page(i) => self.page[i],
            Place::Nowhere => 0,
        }
    }

    // The word at address a, byte by byte.
    #[tactic(auto, unfolding(crate::specs::Memory::peek32, crate::specs::Memory::after))]
    fn peek32_bytes(self, a: u32) -> u32
        ensures { result ≡ M.peek32 (viewed self.entry) a }
    {
        let b0 = self.peek8(a);
        let b1 = self.peek8(a.wrapping_add(1));
        let b2 = self.peek8(a.wrapping_add(2));
        let b3 = self.peek8(a.wrapping_add(3));
        word(b0, b1, b2, b3)
    }

    // The word at address a: at once where it lies in one page of 4,096 bytes, since no window ends inside one.
    #[tactic(auto, using(crate::proofs::Arms::word_read, crate::proofs::Sizes::is_power_lem))]
    pub fn peek32(self, a: u32) -> u32
        ensures { result ≡ M.peek32 (viewed self.entry) a }
    {
        if 4092 < a % 4096 {
            return self.peek32_bytes(a);
        }
        let View {
            dynamic,
            sram,
            page,
        } = self;
        match locate(dynamic.len(), a) {
            Place::Dynamic(i) => word_at(dynamic, i),
            Place::Static(i) => word_at(sram, i),
            Place::Page(i) => word_at(page, i),
            Place::Nowhere => 0,
        }
    }
}

// The three windows to write.
#[derive(Drop)]
pub struct Windows<'a> {
    pub dynamic: &'a mut [u8],
    pub sram: &'a mut [u8; SRAM],
    pub page: &'a mut [u8; PAGE],
    ghost power: { is_power (length dynamic.now) ≡ true },
    ghost sram_length: { length sram.now ≡ S.SRAM },
    ghost page_length: { length page.now ≡ S.PAGE },
}

impl<'a> Windows<'a> {
    ghost use Rattle.bus.specs.Windows.{viewed, memory_of, SameWindows};

    // The same windows, to read.
    pub fn view(&self) -> View<'_>
        ensures { viewed result ≡ memory_of self.now }
    {
        View {
            dynamic: &*self.dynamic,
            sram: &*self.sram,
            page: &*self.page,
        }
    }

    // The register page, to read.
    pub fn registers(&self) -> &[u8; PAGE]
        ensures { result.now ≡ self.now.page.now }
    {
        &*self.page
    }

    // The word at address a.
    pub fn peek32(&self, a: u32) -> u32
        ensures { result ≡ M.peek32 (memory_of self.now) a }
    {
        self.view().peek32(a)
    }

    // Stores v at address a, and answers how many bytes were dropped.
    #[tactic(auto, using(crate::proofs::Arms::byte_written, crate::proofs::Places::lost_at, crate::proofs::Sizes::is_power_lem), unfolding(crate::specs::Memory::write, crate::specs::Memory::lost))]
    pub fn poke8(&mut self, a: u32, v: u8) -> u32
        ensures left { memory_of self.new ≡ M.poke8 (memory_of self.old) a v }
        ensures same { SameWindows self.old self.new }
        ensures value { result ≡ M.dropped8 a }
    {
        match locate(self.dynamic.len(), a) {
            Place::Dynamic(i) => {
                self.dynamic[i] = v;
                0
            }
            Place::Static(i) => {
                self.sram[i] = v;
                0
            }
            Place::Page(i) => {
                self.page[i] = v;
                0
            }
            Place::Nowhere => 1,
        }
    }

    // Stores v at address a, byte by byte, and answers how many bytes were dropped.
    #[tactic(auto, using(crate::proofs::Words::dropped8_le), unfolding(crate::specs::Memory::poke32, crate::specs::Memory::dropped32, crate::specs::Memory::after))]
    fn poke32_bytes(&mut self, a: u32, v: u32) -> u32
        ensures left { memory_of self.new ≡ M.poke32 (memory_of self.old) a v }
        ensures same { SameWindows self.old self.new }
        ensures value { result ≡ M.dropped32 a }
    {
        let n0 = self.poke8(a, (v / 0x100_0000) as u8);
        let n1 = self.poke8(a.wrapping_add(1), (v / 0x1_0000 % 256) as u8);
        let n2 = self.poke8(a.wrapping_add(2), (v / 0x100 % 256) as u8);
        let n3 = self.poke8(a.wrapping_add(3), (v % 256) as u8);
        n0 + n1 + n2 + n3
    }

    // Stores v at address a, and answers how many bytes were dropped.
    #[tactic(auto, using(crate::proofs::Arms::word_written, crate::proofs::Arms::word_dropped, crate::proofs::Sizes::is_power_lem), unfolding(crate::specs::Memory::lost))]
    pub fn poke32(&mut self, a: u32, v: u32) -> u32
        ensures left { memory_of self.new ≡ M.poke32 (memory_of self.old) a v }
        ensures same { SameWindows self.old self.new }
        ensures value { result ≡ M.dropped32 a }
    {
        if 4092 < a % 4096 {
            return self.poke32_bytes(a, v);
        }
        match locate(self.dynamic.len(), a) {
            Place::Dynamic(i) => {
                put_at(self.dynamic, i, v);
                0
            }
            Place::Static(i) => {
                let sram = &mut *self.sram;
                put_at(sram, i, v);
                0
            }
            Place::Page(i) => {
                let page = &mut *self.page;
                put_at(page, i, v);
                0
            }
            Place::Nowhere => 4,
        }
    }
}
