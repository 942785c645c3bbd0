// Lists what the descriptor sets of standard input ask for: a line of hexadecimal pairs each, answered as `config` answers it.
#![tactic(auto)]

ghost use Rattle.std.specs.Option.{ForSome};
ghost use Rattle.std.specs.Prelude.{◌≡◌, ◌<◌, ◌≤◌, None, length};

use config::ConfigInfo;
use script::{answers, words};
use std::fmt;
use std::fmt::Write;
use stdio::{Input, Output};

// What is wrong with a line.
#[derive(Clone, Copy)]
enum Fault {
    Digit,
    Long,
    Odd,
}

impl fmt::Display for Fault {
    fn fmt<W: fmt::Write>(&self, f: &mut fmt::Formatter<W>) -> fmt::Result {
        match self {
            Fault::Digit => write!(f, "a byte that is no lower-case hexadecimal digit"),
            Fault::Long => write!(f, "more bytes than the line's buffer holds"),
            Fault::Odd => write!(f, "an odd number of digits"),
        }
    }
}

// The line being read: the bytes of its set, the first digit of a pair where one waits, and what was wrong first.
#[derive(Drop)]
struct Line {
    set: [u8; 65536],
    held: usize,
    high: Option<u8>,
    fault: Option<Fault>,
    ghost inside: { held ≤ 65536 },
    ghost digit: { ForSome high (λ h. h < 16) },
}

impl Line {
    fn new() -> Self
        ensures held { result.held ≡ 0 }
        ensures high { result.high ≡ None }
        ensures fault { result.fault ≡ None }
    {
        Line {
            set: [0; 65536],
            held: 0,
            high: None,
            fault: None,
        }
    }

    fn is_empty(&self) -> bool {
        self.held == 0 && self.high.is_none() && self.fault.is_none()
    }

    // A fault, unless there is one already.
    fn refuse(&mut self, fault: Fault) {
        if self.fault.is_none() {
            self.fault = Some(fault);
        }
    }

    // One more digit.
    fn feed(&mut self, b: u8) {
        let Some(value) = words::digit(b) else {
            self.refuse(Fault::Digit);
            return;
        };
        let Some(high) = self.high else {
            self.high = Some(value);
            return;
        };
        if self.held == self.set.len() {
            self.refuse(Fault::Long);
            return;
        }
        self.set[self.held] = high * 16 + value;
        self.held += 1;
        self.high = None;
    }

    // What is wrong with the whole line.
    fn wrong(&self) -> Option<Fault> {
        if self.fault.is_none() && self.high.is_some() {
            return Some(Fault::Odd);
        }
        self.fault
    }

    // The end of the line: its answer, and an empty line.
    fn end(&mut self, out: &mut Output)
        ensures held { self.new.held ≡ 0 }
        ensures high { self.new.high ≡ None }
        ensures fault { self.new.fault ≡ None }
    {
        match self.wrong() {
            None => show_info(&config::parse_config(&self.set[..self.held]), out),
            Some(fault) => {
                let _ = writeln!(out, "refused: {fault}");
            }
        }
        self.held = 0;
        self.high = None;
        self.fault = None;
    }
}

// The answer to a set: the two sizes and the number of pairs, then a line for each pair.
fn show_info(info: &ConfigInfo, out: &mut Output) {
    let pairs = info.pairs.as_slice();
    answers::decimal(out, u64::from(info.ob_in_packet));
    out.put(b' ');
    answers::decimal(out, u64::from(info.ob_out_packet));
    out.put(b' ');
    answers::decimal(out, pairs.len() as u64);
    out.put(b'\n');
    for pair in pairs {
        answers::decimal(out, u64::from(pair.interface));
        out.put(b' ');
        answers::decimal(out, u64::from(pair.alternate));
        out.put(b'\n');
    }
}

// The bytes of a piece, up to a write that fails.
fn take_piece(line: &mut Line, piece: &[u8], out: &mut Output)
    ensures { length out.old.bytes ≤ 40000 → length out.new.bytes ≤ 40000 }
{
    for b in piece {
        if *b != b'\n' {
            line.feed(*b);
            continue;
        }
        line.end(out);
        out.make_room();
        if out.failed() {
            return;
        }
    }
}

// Every piece. A last line that no line end follows is answered too; an unfinished one behind which a read failed is not.
fn list(input: &mut Input, out: &mut Output) {
    let mut line = Line::new();
    for _ in 0..u64::MAX {
        let Some(piece) = input.next_piece() else {
            break;
        };
        take_piece(&mut line, piece, out);
        if out.failed() {
            return;
        }
    }
    if !(input.failed() || line.is_empty()) {
        line.end(out);
    }
}

fn main(rt: HostRuntime) {
    let mut input = Input::new(rt);
    let mut out = Output::new(rt);
    list(&mut input, &mut out);
    out.finish("configlist", "the list is", input.failed());
}
