// Standard output, or none, from a buffer: what has no room makes it write what it holds; behind a write that failed nothing is written any more.
ghost use Rattle.std.specs.Prelude.{◌≡◌, ◌+◌, ◌<◌, ◌≤◌, [], ◌∷◌, length, take};
ghost use Rattle.stdio.specs.Held.{fresh, more, Stays};

use std::fmt;
use std::io::Write;
use std::marker::Model;

// A clause sees what the buffer holds, and whether a write failed.
#[derive(Drop)]
pub struct Output {
    buffer: [u8; 65536],
    held: usize,
    failed: bool,
    rt: Option<HostRuntime>,
}

impl Model for Output {
    ghost use Rattle.std.specs.Prelude.{◌≤◌, take};
    ghost use Rattle.stdio.specs.Held.{Held};

    ghost Value = { Held };

    ghost view = { λ o. record { bytes = take o.held o.buffer; failed = o.failed } };

    ghost invariant = { λ o. o.held ≤ 65536 };
}

impl Output {
    // An output that holds nothing.
    fn empty(rt: Option<HostRuntime>) -> Self
        ensures { result ≡ fresh }
    {
        Output {
            buffer: [0; 65536],
            held: 0,
            failed: false,
            rt,
        }
    }

    // An output of a program that has written nothing.
    pub fn new(rt: HostRuntime) -> Self
        ensures { result ≡ fresh }
    {
        Output::empty(Some(rt))
    }

    // An output whose text goes nowhere.
    pub fn nowhere() -> Self
        ensures { result ≡ fresh }
    {
        Output::empty(None)
    }

    // Whether a write failed.
    pub fn failed(&self) -> bool
        ensures { result ≡ self.now.failed }
    {
        self.failed
    }

    // Writes a text past the buffer, unless a write failed.
    fn pass(&mut self, text: &[u8])
        ensures held { self.new.bytes ≡ self.old.bytes }
        ensures stays { Stays self.old self.new }
    {
        if let Some(rt) = self.rt
            && !self.failed
        {
            let mut output = rt.stdout();
            self.failed = output.write_all(text).is_err();
        }
    }

    // Writes what the buffer holds, unless a write failed, and empties it.
    #[cold]
    #[inline(never)]
    pub fn flush(&mut self)
        ensures emptied { self.new.bytes ≡ [] }
        ensures stays { Stays self.old self.new }
    {
        if let Some(rt) = self.rt
            && !self.failed
        {
            let mut output = rt.stdout();
            self.failed = output.write_all(&self.buffer[..self.held]).is_err();
        }
        self.held = 0;
    }

    // Writes what the buffer holds once that is more than 40,000 bytes. Called behind each line of answers that is at most 25,536 bytes long, it lets no write end inside one.
    pub fn make_room(&mut self)
        ensures room { length self.new.bytes ≤ 40000 }
        ensures kept { length self.old.bytes ≤ 40000 → self.new ≡ self.old }
        ensures stays { Stays self.old self.new }
    {
        if 40000 < self.held {
            self.flush();
        }
    }

    // Room for `count` bytes behind those held, or in a buffer that is empty again.
    fn reserve(&mut self, count: usize)
        requires { count ≤ 65536 }
        ensures room { length self.new.bytes + count ≤ 65536 }
        ensures kept { length self.old.bytes + count ≤ 65536 → self.new ≡ self.old }
        ensures stays { Stays self.old self.new }
    {
        if 65536 - self.held < count {
            self.flush();
        }
    }

    // A byte.
    pub fn put(&mut self, b: u8)
        ensures held { length self.old.bytes < 65536 → self.new ≡ more self.old (b ∷ []) }
        ensures stays { Stays self.old self.new }
    {
        self.reserve(1);
        self.buffer[self.held] = b;
        self.held += 1;
    }

    // Two bytes.
    pub fn put_both(&mut self, first: u8, second: u8)
        ensures held { length self.old.bytes + 2 ≤ 65536 → self.new ≡ more self.old (first ∷ second ∷ []) }
        ensures stays { Stays self.old self.new }
    {
        self.reserve(2);
        self.buffer[self.held] = first;
        self.buffer[self.held + 1] = second;
        self.held += 2;
    }

    // A text; one that is longer than the buffer is written past it.
    pub fn append(&mut self, text: &[u8])
        ensures held { length self.old.bytes + length text.now ≤ 65536 → self.new ≡ more self.old text.now }
        ensures stays { Stays self.old self.new }
    {
        if self.buffer.len() < text.len() {
            self.flush();
            self.pass(text);
            return;
        }
        self.reserve(text.len());
        let end = self.held + text.len();
        self.buffer[self.held..end].copy_from_slice(text);
        self.held = end;
    }

    // The first `count` bytes of a short text.
    pub fn append_first<const N: usize>(&mut self, text: &[u8; N], count: usize)
        requires { (count ≤ N) × (N ≤ 65536) }
        ensures held { length self.old.bytes + N ≤ 65536 → self.new ≡ more self.old (take count text.now) }
        ensures stays { Stays self.old self.new }
    {
        self.reserve(N);
        let end = self.held + N;
        self.buffer[self.held..end].copy_from_slice(text);
        self.held += count;
    }

    // The end of a program: what the buffer holds is written, and what could not be read or written is said on standard error, as that `work`,
    // which is `the log is` or the like, is not whole. Whether that can be said is not asked.
    pub fn finish(&mut self, program: &str, work: &str, unread: bool)
        ensures emptied { self.new.bytes ≡ [] }
        ensures stays { Stays self.old self.new }
    {
        if let Some(rt) = self.rt
            && unread
        {
            let _ = eprintln!(rt; "{program}: standard input could not be read; {work} not whole");
        }
        self.flush();
        if let Some(rt) = self.rt
            && self.failed
        {
            let _ = eprintln!(rt;
                "{program}: standard output could not be written; {work} not whole"
            );
        }
    }
}

impl fmt::Write for Output {
    ghost write_str_gives = { λ old text new. length old.bytes + length text ≤ 65536 → new ≡ more old text };

    fn write_str(&mut self, s: &str) -> fmt::Result {
        self.append(s.as_bytes());
        Ok(())
    }
}
