// FNV-1a hashes of 64 bits.
ghost use Rattle.std.specs.Prelude.{◌≡◌};
ghost use Rattle.script.specs.Fnv as F;

// The hash of no bytes.
pub const START: u64 = 0xCBF2_9CE4_8422_2325;

// The prime of 64 bits.
const PRIME: u64 = 0x0100_0000_01B3;

// The hash `h` with one more byte.
#[tactic(auto, unfolding(crate::specs::Fnv::mixed))]
pub fn mixed(h: u64, b: u8) -> u64
    ensures { result ≡ F.mixed h b }
{
    (h ^ u64::from(b)).wrapping_mul(PRIME)
}

// The hash of all bytes of a slice.
#[tactic(auto, unfolding(crate::specs::Fnv::mixed_all))]
pub fn hash_all(bytes: &[u8]) -> u64
    ensures { result ≡ F.mixed_all F.START bytes.now }
{
    let mut h = START;
    for b in bytes {
        h = mixed(h, *b);
    }
    h
}
