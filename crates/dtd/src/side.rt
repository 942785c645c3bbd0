// Where the bytes of a run come from or go: what the host has to send, or what takes or counts the device's.

ghost use Rattle.std.specs.Prelude.{◌≡◌, ℕ, ◌≤◌, Bool, true, false, List, [], length, refl};
ghost use Rattle.bus.specs.Windows.{memory_of, SameWindows};
ghost use Rattle.dtd.specs.Promises as P;

use crate::Descriptor;
use bus::Windows;

// The bytes of one descriptor: how many the run counts, and how many of them were dropped.
#[derive(Clone, Copy)]
pub struct Moved {
    pub bytes: u32,
    pub lost: u32,
}

// One side of the runs, which moves the bytes of each active descriptor.
pub trait Side {
    ghost input: { Bool };

    // What is left to send.
    ghost to_send: { Self → List ℕ };

    // What is held at last, by the bytes that the run still gives.
    ghost holds: { Self → List ℕ → P.Held };

    // The same references: what the side holds at last, their lender holds.
    ghost Same: { Self → Self → Type 0 };

    // Whether the device sends.
    fn is_input(&self) -> bool
        ensures { result ≡ input };

    // Moves the bytes of an active descriptor.
    fn move_bytes(&mut self, windows: &mut Windows<'_>, descriptor: Descriptor) -> Moved
        ensures left { P.Moves input descriptor (to_send self.old) (to_send self.new) (holds self.old) (holds self.new) (memory_of windows.old) (memory_of windows.new) result }
        ensures same { SameWindows windows.old windows.new }
        ensures held { Same self.old self.new };

    ghost same_refl: { (s : Self) → Same s s };

    ghost same_trans: { (s u v : Self) → Same s u → Same u v → Same s v };
}

// What is left to send.
#[derive(Clone, Copy)]
pub struct Source<'a> {
    pub bytes: &'a [u8],
}

impl Side for Source<'_> {
    ghost input = { false };

    ghost to_send = { λ s. s.bytes.now };

    ghost holds = { λ s. P.holds_none };

    ghost Same = { λ s u. Unit };

    fn is_input(&self) -> bool {
        false
    }

    // An active output descriptor takes what it can of what is left.
    #[tactic(auto, using(usbdev::proofs::Tokens::total_lt))]
    fn move_bytes(&mut self, windows: &mut Windows<'_>, descriptor: Descriptor) -> Moved {
        let bytes = self.bytes;
        let count = (usbdev::total(descriptor.token) as usize).min(bytes.len());
        let ps = transfer::pointers_for(
            windows.view(),
            bits::clear(descriptor.pointer, 0x1F),
            count,
        );
        let lost = transfer::copy_out(windows, &ps, bytes, count);
        self.bytes = &bytes[count..];
        Moved {
            bytes: count as u32,
            lost,
        }
    }

    ghost same_refl = { λ s. tt };

    ghost same_trans = { λ s u v h k. tt };
}

// Input whose bytes are only counted.
#[derive(Clone, Copy)]
pub struct Counted;

impl Side for Counted {
    ghost input = { true };

    ghost to_send = { λ s. [] };

    ghost holds = { λ s. P.holds_none };

    ghost Same = { λ s u. Unit };

    fn is_input(&self) -> bool {
        true
    }

    // The bytes stay where they are.
    fn move_bytes(&mut self, windows: &mut Windows<'_>, descriptor: Descriptor) -> Moved {
        Moved {
            bytes: usbdev::total(descriptor.token),
            lost: 0,
        }
    }

    ghost same_refl = { λ s. tt };

    ghost same_trans = { λ s u v h k. tt };
}
