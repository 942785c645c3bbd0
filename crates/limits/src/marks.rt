// Marks that fill what a call is lent, and how many of them it changed.
ghost use Rattle.std.specs.Prelude.{◌≡◌, length};

// What every byte of an area holds before a call, and every word of a ring.
pub const MARK: u8 = 0xEE;

pub const WORD_MARK: u32 = 0xEEEE_EEEE;

// How many are not the mark.
pub fn changed<T: PartialEq + Drop>(items: &[T], mark: T) -> usize {
    let mut changed: usize = 0;
    for item in items {
        changed = changed.wrapping_add(usize::from(*item != mark));
    }
    changed
}

// A ring of marks, longer than the longest. Its length alone is told, so that a caller's proof does not look at each word.
pub fn word_marks() -> [u32; 576_012]
    ensures { 576012 ≡ length result }
{
    [WORD_MARK; 576_012]
}

// The sending ring, which a microframe only reads: no array of the stack.
pub static SENDING: [u32; 576_012] = [WORD_MARK; 576_012];
