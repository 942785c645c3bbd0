// Standard input by lines from a buffer: what could not be read is told from what ended.
ghost use Rattle.std.specs.Prelude.{◌≡◌, ◌+◌, ◌<◌, ◌≤◌, true, length, IfSome, IsSomeAnd};
ghost use Rattle.stdio.specs.Held.{fresh};

use std::io::Read;
use std::marker::Model;

// A clause sees the bytes that were read and not taken, and whether a read failed.
#[derive(Drop)]
pub struct Input {
    text: [u8; 65536],
    next: usize,
    held: usize,
    failed: bool,
    rt: HostRuntime,
}

impl Model for Input {
    ghost use Rattle.std.specs.Prelude.{◌≤◌, take, drop};
    ghost use Rattle.stdio.specs.Held.{Held};

    ghost Value = { Held };

    ghost view = { λ i. record { bytes = drop i.next (take i.held i.text); failed = i.failed } };

    ghost invariant = { λ i. (i.next ≤ i.held) × (i.held ≤ 65536) };
}

impl Input {
    // An input of which nothing is read.
    pub fn new(rt: HostRuntime) -> Self
        ensures { result ≡ fresh }
    {
        Input {
            text: [0; 65536],
            next: 0,
            held: 0,
            failed: false,
            rt,
        }
    }

    // Whether a read failed.
    pub fn failed(&self) -> bool
        ensures { result ≡ self.now.failed }
    {
        self.failed
    }

    // The bytes that were read and not taken.
    fn rest(&self) -> &[u8]
        ensures { result.now ≡ self.now.bytes }
    {
        &self.text[self.next..self.held]
    }

    // How many bytes stand before the next line end, where one is held.
    fn line_end(&self) -> Option<usize>
        ensures { IfSome result (λ n. n + 1 ≤ length self.now.bytes) }
    {
        self.rest().iter().position(|b| *b == b'\n')
    }

    // Reads once, behind what is left; whether more is held then. Where a read fails nothing is left.
    fn read_on(&mut self) -> bool
        ensures { result ≡ true → 0 < length self.new.bytes }
    {
        self.text.copy_within(self.next..self.held, 0);
        self.held -= self.next;
        self.next = 0;
        if self.held == self.text.len() {
            return false;
        }
        let mut input = self.rt.stdin();
        match input.read(&mut self.text[self.held..]) {
            Ok(count) => {
                self.held += count;
                0 < count
            }
            Err(_) => {
                self.failed = true;
                self.next = self.held;
                false
            }
        }
    }

    // How long the next line is, once its end is held, or all that is left: a last line that no line end follows, or one longer than the buffer.
    fn fetch(&mut self) -> usize
        ensures { result ≤ length self.new.bytes }
    {
        for _ in 0..u64::MAX {
            if let Some(count) = self.line_end() {
                return count;
            }
            if !self.read_on() {
                break;
            }
        }
        self.rest().len()
    }

    // The next line, taken with its end. The last one may have none; one of 65,536 bytes is the start of a line that the buffer does not hold.
    pub fn next_line(&mut self) -> Option<&[u8]>
        ensures { IfSome result (λ line. length line.now ≤ 65536) }
    {
        let count = self.fetch();
        if self.next == self.held {
            return None;
        }
        let from = self.next;
        let end = from + count;
        self.next = self.held.min(end + 1);
        let input = &*self;
        Some(&input.text[from..end])
    }

    // Reads once where nothing is left; whether something is held then.
    fn some(&mut self) -> bool
        ensures some { result ≡ true → 0 < length self.new.bytes }
        ensures held { 0 < length self.old.bytes → (result ≡ true) × (self.new ≡ self.old) }
    {
        self.next < self.held || self.read_on()
    }

    // All that is held, taken, or what one read gives where nothing is left.
    pub fn next_piece(&mut self) -> Option<&[u8]>
        ensures piece { IfSome result (λ piece. (0 < length piece.now) × (length piece.now ≤ 65536)) }
        ensures held { 0 < length self.old.bytes → IsSomeAnd result (λ piece. piece.now ≡ self.old.bytes) }
    {
        if !self.some() {
            return None;
        }
        let from = self.next;
        let end = self.held;
        let text = &self.text;
        self.next = end;
        Some(&text[from..end])
    }
}
