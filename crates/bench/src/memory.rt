// The memory of a run: three windows.
ghost use Rattle.std.specs.Prelude.{◌≡◌, ◌≤◌, ◌⊎◌, ◌↔◌, true, IsSome, IfSome, IfNone};
ghost use Rattle.bus.specs.Sized.{is_power};
ghost use Rattle.bench.specs.Zeros.{Zeros};

use script::memory;
use stdio::Output;

// The windows; of dynamic memory's array a run has the first `length` bytes.
#[derive(Drop)]
pub struct Memory {
    pub dynamic: [u8; 65536],
    pub sram: [u8; bus::SRAM],
    pub page: [u8; bus::PAGE],
    length: usize,
    ghost inside: { length ≤ 65536 },
}

impl Memory {
    // Memory of zeros, and the shortest length.
    pub fn new() -> Self
        ensures { Zeros 4096 result.dynamic result.sram result.page result.length }
    {
        Memory {
            dynamic: [0; 65536],
            sram: [0; bus::SRAM],
            page: [0; bus::PAGE],
            length: 4096,
        }
    }

    // How long dynamic memory is.
    pub fn length(&self) -> usize
        ensures { (result ≡ self.now.length) × (result ≤ 65536) }
    {
        self.length
    }

    // Memory of zeros; a length that no run has, or above that of dynamic memory's array, leaves it as it is.
    pub fn restart(&mut self, length: usize) -> Option<()>
        ensures begun { IsSome result ↔ ((is_power length ≡ true) × (length ≤ 65536)) }
        ensures zeros { IfSome result (λ u. Zeros length self.new.dynamic self.new.sram self.new.page self.new.length) }
        ensures kept { IfNone result (self.new ≡ self.old) }
    {
        if self.dynamic.len() < length || !bus::power(length) {
            return None;
        }
        self.dynamic = [0; 65536];
        self.sram = [0; bus::SRAM];
        self.page = [0; bus::PAGE];
        self.length = length;
        Some(())
    }

    // A line that goes through the windows, or a bad one.
    pub fn line(&mut self, letter: u8, line: &[u8], out: &mut Output) -> Option<()>
        ensures letters { IsSome result → (letter ≡ 119) ⊎ ((letter ≡ 102) ⊎ (letter ≡ 112)) }
        ensures kept { self.new.length ≡ self.old.length }
    {
        let length = self.length();
        let Memory {
            dynamic,
            sram,
            page,
            length: _,
        } = self;
        let used: &mut [u8] = dynamic;
        memory::line(letter, line, &mut used[..length], sram, page, out)
    }
}
