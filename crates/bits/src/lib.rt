// Words of 32 bits: clear, set and test the bits of a mask, and replace the field under one.
ghost use Rattle.std.specs.Prelude.{◌≡◌};
ghost use Rattle.bits.specs.Word as W;

// `v` without the bits of `m`.
pub fn clear(v: u32, m: u32) -> u32
    ensures { result ≡ W.clear v m }
{
    v & !m
}

// `v` with the bits of `m`.
pub fn set(v: u32, m: u32) -> u32
    ensures { result ≡ W.set v m }
{
    v | m
}

// Whether `v` has one of the bits of `m`.
pub fn any(v: u32, m: u32) -> bool
    ensures { result ≡ W.any v m }
{
    v & m != 0
}

// `v` with the bits under the mask `m` taken from `f`.
pub fn replace(v: u32, m: u32, f: u32) -> u32
    ensures { result ≡ W.replace v m f }
{
    (v & !m) | (f & m)
}
