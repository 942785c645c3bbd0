// A queue of bytes that a part sends.
ghost use Rattle.std.specs.Prelude.{◌≡◌, ◌+◌, ◌-◌, ◌≤◌, ◌++◌, length, take, drop};

// The bytes queued stand at the start of the array.
#[derive(Drop)]
pub struct Queue {
    pub bytes: [u8; 4096],
    pub held: usize,
    ghost inside: { held ≤ 4096 },
}

impl Queue {
    pub fn new() -> Self
        ensures { result.held ≡ 0 }
    {
        Queue {
            bytes: [0; 4096],
            held: 0,
        }
    }

    // An empty one.
    pub fn clear(&mut self)
        ensures { self.new.held ≡ 0 }
    {
        self.held = 0;
    }

    // The bytes queued.
    pub fn as_slice(&self) -> &[u8]
        ensures { result.now ≡ take self.now.held self.now.bytes }
    {
        &self.bytes[..self.held]
    }

    // How many more it can hold.
    pub fn room(&self) -> usize
        ensures { result + self.now.held ≡ 4096 }
    {
        self.bytes.len() - self.held
    }

    // Some bytes behind the last.
    pub fn add(&mut self, bytes: &[u8])
        requires { self.old.held + length bytes.now ≤ 4096 }
        ensures { take self.new.held self.new.bytes ≡ take self.old.held self.old.bytes ++ bytes.now }
    {
        let end = self.held + bytes.len();
        self.bytes[self.held..end].copy_from_slice(bytes);
        self.held = end;
    }

    // The queue without its first `count` bytes.
    pub fn remove(&mut self, count: usize)
        requires { count ≤ self.old.held }
        ensures { take self.new.held self.new.bytes ≡ drop count (take self.old.held self.old.bytes) }
    {
        self.bytes.copy_within(count..self.held, 0);
        self.held -= count;
    }
}
