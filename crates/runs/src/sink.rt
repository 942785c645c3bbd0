// An area to fill, as a side of runs.

ghost use Rattle.std.specs.Prelude.{◌≡◌, ◌≤◌, true, [], length, refl};
ghost use Rattle.std.proofs.Common.{◌∙◌};
ghost use Rattle.runs.specs.Turns as T;

use bus::Windows;
use dtd::{Descriptor, Moved, Side};

// An area to fill from `at` on; what lies past the limit is discarded.
#[derive(Drop)]
pub struct Sink<'a> {
    pub out: &'a mut [u8],
    pub at: usize,
    pub limit: usize,
    ghost inside: { (limit ≤ length out.now) × (at ≤ limit) },
}

impl Side for Sink<'_> {
    ghost input = { true };

    ghost to_send = { λ s. [] };

    ghost holds = { λ s. T.filled s.out.now s.at s.limit };

    ghost Same = { λ s u. u.out.ghost_name ≡ s.out.ghost_name };

    fn is_input(&self) -> bool {
        true
    }

    // The bytes of an active input descriptor go into the area.
    #[tactic(auto, using(usbdev::proofs::Tokens::total_lt))]
    fn move_bytes(&mut self, windows: &mut Windows<'_>, descriptor: Descriptor) -> Moved {
        let total = usbdev::total(descriptor.token);
        let keep = (total as usize).min(self.limit - self.at);
        let ps = transfer::pointers_for(
            windows.view(),
            bits::clear(descriptor.pointer, 0x1F),
            keep,
        );
        transfer::copy_in(windows.view(), &ps, keep, self.out, self.at);
        self.at = self.at + keep;
        Moved {
            bytes: total,
            lost: 0,
        }
    }

    ghost same_refl = { λ s. refl };

    ghost same_trans = { λ s u v h k. k ∙ h };
}
