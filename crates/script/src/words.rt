// The words of a line: numbers and byte strings in lower-case hexadecimal.
ghost use Rattle.std.specs.Prelude.{◌≡◌, ◌==◌, ◌+◌, ◌*◌, ◌/◌, ◌%◌, ◌^◌, ◌<◌, ◌≤◌, ◌↔◌, [], take, drop, length, IsSome, IfSome, IfNone, None, true, is_some, unwrap_or, option_map, option_copied};
ghost use Rattle.script.specs.Line as L;

// The letter that a line begins with, where a space or the end follows it.
pub fn letter(line: &[u8]) -> Option<u8>
    ensures { result ≡ L.letter line.now }
{
    match line {
        [0 | b' ', ..] => None,
        [first] | [first, b' ', ..] => Some(*first),
        _ => None,
    }
}

// The value of a digit.
pub fn digit(b: u8) -> Option<u8>
    ensures value { result ≡ L.digit b }
    ensures small { IfSome result (λ d. d < 16) }
{
    match b {
        b'0'..=b'9' => Some(b - b'0'),
        b'a'..=b'f' => Some(b - 87),
        _ => None,
    }
}

// Whether a character is a digit.
fn is_digit(b: u8) -> bool
    ensures { result ≡ is_some (L.digit b) }
{
    matches!(b, b'0'..=b'9' | b'a'..=b'f')
}

// What a digit is worth, without asking which kind it is: what comes next in a text cannot be foreseen.
fn worth(b: u8) -> u8
    ensures small { result ≤ 42 }
    ensures value { is_some (L.digit b) ≡ true → result ≡ unwrap_or (L.digit b) 0 }
{
    b % 16 + b / 64 * 9
}

// The byte of two characters, and whether they are digits; 0 where they are not.
fn pair(high: u8, low: u8) -> (u8, bool)
    ensures value { result.0 ≡ unwrap_or (L.byte high low) 0 }
    ensures both { result.1 ≡ is_some (L.byte high low) }
{
    let both = is_digit(high) & is_digit(low);
    if both {
        (worth(high) * 16 + worth(low), both)
    } else {
        (0, both)
    }
}

// Whether a text is digits to its end.
fn all_digits(text: &[u8]) -> bool
    ensures { result ≡ (L.run text.now == length text.now) }
{
    for i in 0..text.len() {
        if !is_digit(text[i]) {
            return false;
        }
    }
    true
}

// The byte of two digits.
pub fn byte(high: u8, low: u8) -> Option<u8>
    ensures { result ≡ L.byte high low }
{
    Some(digit(high)? * 16 + digit(low)?)
}

// With how many digits a text begins, and the number that they make where they are at most sixteen.
fn read(text: &[u8]) -> (usize, u64)
    ensures count { result.0 ≡ L.run text.now }
    ensures inside { result.0 ≤ length text.now }
    ensures value { result.0 ≤ 16 → result.1 ≡ L.hex 0 (take (L.run text.now) text.now) }
{
    let mut value: u64 = 0;
    for (i, b) in text.iter().enumerate() {
        let Some(d) = digit(*b) else {
            return (i, value);
        };
        value = (value << 4) | u64::from(d);
    }
    (text.len(), value)
}

// Stores the bytes that pairs of characters make, nothing for a pair that is not two digits, and whether all are digits.
pub(crate) fn put_digits(part: &mut [u8], text: &[u8]) -> bool
    requires { length text.now ≡ 2 * length part.old }
    ensures all { result ≡ (L.run text.now == length text.now) }
    ensures value { part.new ≡ L.bytes text.now }
{
    let mut all = true;
    for i in 0..part.len() {
        let (value, both) = pair(text[2 * i], text[2 * i + 1]);
        all &= both;
        part[i] = value;
    }
    all
}

// The byte of two digits, without a test of them.
fn made(high: u8, low: u8) -> u8
    ensures { is_some (L.byte high low) ≡ true → result ≡ unwrap_or (L.byte high low) 0 }
{
    worth(high) % 16 * 16 + worth(low) % 16
}

// Stores the bytes of pairs of digits that were tested.
pub(crate) fn put_tested(part: &mut [u8], text: &[u8])
    requires { length text.now ≡ 2 * length part.old }
    ensures { (L.run text.now == length text.now) ≡ true → part.new ≡ L.bytes text.now }
{
    for i in 0..part.len() {
        part[i] = made(text[2 * i], text[2 * i + 1]);
    }
}

// A place in a line, from which its words are taken.
#[derive(Clone, Copy)]
pub struct Words<'a> {
    line: &'a [u8],
    next: usize,
    ghost inside: { next ≤ length line.now },
}

impl<'a> Words<'a> {
    ghost use Rattle.script.specs.Left.{left};

    // The words behind a line's letter.
    pub fn new(line: &'a [u8]) -> Self
        ensures { left result ≡ drop 1 line.entry.now }
    {
        Words {
            line,
            next: line.len().min(1),
        }
    }

    // Steps over a space, or to the line's end where none stands next.
    fn space(&mut self) -> Option<()>
        ensures some { option_map (λ u. left self.new) result ≡ L.spaced (left self.old) }
        ensures none { IfNone result (left self.new ≡ []) }
        ensures line { self.new.line ≡ self.old.line }
    {
        if self.line[self.next..].first() == Some(&b' ') {
            self.next += 1;
            return Some(());
        }
        self.next = self.line.len();
        None
    }

    // A space and a number, which has at most 16 digits. The place is behind its digits also where there are more or none.
    pub fn number(&mut self) -> Option<u64>
        ensures value { result ≡ L.number (left self.old) }
        ensures behind { left self.new ≡ L.behind (left self.old) }
    {
        self.space()?;
        let text = &self.line[self.next..];
        let (count, value) = read(text);
        self.next += count;
        if 1 <= count && count <= 16 {
            Some(value)
        } else {
            None
        }
    }

    // A space and a number of 32 bits.
    pub fn word(&mut self) -> Option<u32>
        ensures value { result ≡ L.short (L.number (left self.old)) }
        ensures behind { left self.new ≡ L.behind (left self.old) }
    {
        u32::try_from(self.number()?).ok()
    }

    // The line's end.
    pub fn end(&self) -> Option<()>
        ensures { IsSome result ↔ (left self.now ≡ []) }
    {
        if self.next == self.line.len() {
            Some(())
        } else {
            None
        }
    }

    // A space and the text of a byte string, up to the line's end: pairs of characters, or none where it is a dash.
    fn pairs(&mut self) -> Option<&'a [u8]>
        ensures value { option_copied result ≡ L.pairs (left self.old) }
        ensures even { IfSome result (λ text. length text.now % 2 ≡ 0) }
        ensures inside { IfSome result (λ text. length text.now ≤ length self.old.line.now) }
    {
        self.space()?;
        let text = &self.line[self.next..];
        if let [b'-'] = text {
            return Some(&text[1..]);
        }
        if text.is_empty() || text.len() % 2 != 0 {
            return None;
        }
        Some(text)
    }

    // A space and a byte string, which ends the line: its digits, two for each byte.
    pub fn digits(&mut self) -> Option<&'a [u8]>
        ensures value { option_copied result ≡ L.digits (left self.old) }
        ensures even { IfSome result (λ text. length text.now % 2 ≡ 0) }
        ensures inside { IfSome result (λ text. length text.now ≤ length self.old.line.now) }
    {
        let text = self.pairs()?;
        if !all_digits(text) {
            return None;
        }
        Some(text)
    }

    // The same, stored as bytes at the start of a buffer: none is read where half the line's length does not fit.
    pub fn bytes<'b>(&mut self, into: &'b mut [u8]) -> Option<&'b [u8]>
        ensures read { length self.old.line.now / 2 ≤ length into.old → option_copied result ≡ L.byte_string (left self.old) }
        ensures none { length into.old < length self.old.line.now / 2 → result ≡ None }
    {
        if into.len() < self.line.len() / 2 {
            return None;
        }
        let text = self.pairs()?;
        let part = &mut into[..text.len() / 2];
        if !put_digits(part, text) {
            return None;
        }
        Some(part)
    }
}
