// Answers as text, put into the output.
ghost use Rattle.std.specs.Prelude.{◌≡◌, ◌+◌, ◌<◌, ◌≤◌, length};
ghost use Rattle.stdio.specs.Behind.{Behind};

use refusal::Refusal;
use stdio::Output;

fn glyph(d: u8) -> u8
    requires { d < 16 }
{
    if d < 10 { b'0' + d } else { 87 + d }
}

// How many digits a number has.
#[tactic(auto, using(std::proofs::lemmas::Nat::leading_le))]
fn places(n: u64) -> usize
    ensures { (1 ≤ result) × (result ≤ 16) }
{
    ((67 - n.leading_zeros() as usize) / 4).max(1)
}

// A space and a number.
#[tactic(auto, using(stdio::proofs::Behind::behind_first))]
pub fn field(out: &mut Output, n: u64)
    ensures { Behind 17 out.old out.new }
{
    let count = places(n);
    let mut text = [b' '; 17];
    let mut rest = n;
    for i in 0..count {
        text[count - i] = glyph((rest % 16) as u8);
        rest = rest >> 4;
    }
    out.append_first(&text, count + 1);
}

// A number in decimal.
#[tactic(auto, using(stdio::proofs::Behind::behind_text, stdio::proofs::Behind::behind_le))]
pub fn decimal(out: &mut Output, n: u64)
    ensures { Behind 20 out.old out.new }
{
    let mut digits = [b'0'; 20];
    let mut start = 20;
    let mut rest = n;
    for i in (0..20).rev() {
        digits[i] = b'0' + (rest % 10) as u8;
        start = i;
        rest = rest / 10;
        if rest == 0 {
            break;
        }
    }
    out.append(&digits[start..]);
}

// A space and 0 or 1.
#[tactic(auto, using(stdio::proofs::Behind::behind_first))]
pub fn flag(out: &mut Output, on: bool)
    ensures { Behind 2 out.old out.new }
{
    out.append_first(if on { b" 1" } else { b" 0" }, 2);
}

// A byte as two digits.
#[tactic(auto, using(stdio::proofs::Behind::behind_first))]
pub fn pair(out: &mut Output, b: u8)
    ensures behind { Behind 2 out.old out.new }
    ensures both { length out.old.bytes + 2 ≤ 65536 → length out.new.bytes ≡ length out.old.bytes + 2 }
{
    out.put_both(glyph(b / 16), glyph(b % 16));
}

// A letter, one number and the line's end.
#[tactic(auto, using(stdio::proofs::Behind::behind_byte, stdio::proofs::Behind::behind_then))]
pub fn single(out: &mut Output, letter: u8, n: u64)
    ensures { Behind 19 out.old out.new }
{
    out.put(letter);
    field(out, n);
    out.put(b'\n');
}

#[tactic(auto, using(stdio::proofs::Behind::behind_text))]
pub fn bad_line(out: &mut Output)
    ensures { Behind 9 out.old out.new }
{
    out.append(b"bad line\n");
}

// The number of a refusal.
#[tactic(auto, using(stdio::proofs::Behind::behind_text, stdio::proofs::Behind::behind_byte, stdio::proofs::Behind::behind_then))]
pub fn refused(out: &mut Output, refusal: Refusal)
    ensures { Behind 25 out.old out.new }
{
    out.append(b"refused");
    field(out, u64::from(refusal.number()));
    out.put(b'\n');
}

// The answer to a call that gives nothing but its refusal.
#[tactic(auto, using(stdio::proofs::Behind::behind_text, stdio::proofs::Behind::behind_le))]
pub fn outcome(out: &mut Output, called: Result<(), Refusal>)
    ensures { Behind 25 out.old out.new }
{
    match called {
        Ok(()) => out.append(b"ok\n"),
        Err(refusal) => refused(out, refusal),
    }
}
