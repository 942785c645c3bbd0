// Why a call is refused: an enum of the reasons, each with its number.
#![tactic(auto)]

ghost use Rattle.std.specs.Prelude.{◌≡◌};
ghost use Rattle.bits.specs.Pick.{pick};
ghost use Rattle.refusal.specs.Number.{number};

// The reasons, in the order of their numbers; where several hold, a call gives the one that it tests first.
#[derive(Clone, Copy, Debug, PartialEq, Eq)]
pub enum Refusal {
    // The lengths of the three memory windows.
    Windows = 1,
    // The length of a lent area, or of a frame.
    Areas = 2,
    // More gone spans than a host has room for.
    Spans = 3,
    // A device access that is not of 1, 2 or 4 bytes, not aligned, or not wholly inside the page.
    Access = 4,
    // A record outside its bounds.
    Bounds = 5,
    // A microframe behind the last one of a host.
    Microframes = 6,
    // More than the space that is left.
    Space = 7,
    // A cable that an endpoint does not have.
    Cable = 8,
}

impl Refusal {
    // The reason's number.
    pub fn number(self) -> u8
        ensures { result ≡ number self }
    {
        self as u8
    }
}

// A test whose failure refuses a call.
pub fn unless(test: bool, refusal: Refusal) -> Result<(), Refusal>
    ensures { result ≡ pick test (Ok tt) (Err refusal) }
{
    if test { Ok(()) } else { Err(refusal) }
}
