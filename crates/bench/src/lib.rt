// Runs a part of the host on a bench: the lines of a script start its runs, reach the memory windows and call it.
#![tactic(auto)]

ghost use Rattle.std.specs.Prelude.{◌≤◌};

mod memory;
mod queue;

pub use memory::Memory;
pub use queue::Queue;
use script::answers;
use script::words::{self, Words};
use stdio::{Input, Output};

// What a part does with a script; it holds what a run has beside its memory.
pub trait Part {
    // A run's start; the words are those of its line behind the length of dynamic memory.
    fn start(&mut self, words: Words<'_>);

    // The answer to any other line, or None where it is a bad one.
    fn answer(&mut self, line: &[u8], memory: &mut Memory, out: &mut Output) -> Option<()>;
}

// A part, and the number of its run.
#[derive(Drop)]
struct Bench<P> {
    part: P,
    run: u64,
    memory: Memory,
}

impl<P: Part> Bench<P> {
    // `n LEN ..`: a new run, with memory of zeros.
    fn start(&mut self, line: &[u8], out: &mut Output) -> Option<()> {
        let mut words = Words::new(line);
        let length = words.word()? as usize;
        self.memory.restart(length)?;
        self.part.start(words);
        self.run = self.run.wrapping_add(1);
        answers::single(out, b'n', self.run);
        Some(())
    }

    // The answer to a line, or None where it is a bad one; an empty one and a comment have none.
    fn call(&mut self, line: &[u8], out: &mut Output) -> Option<()> {
        if let [] | [b'#', ..] = line {
            return Some(());
        }
        if words::letter(line) == Some(b'n') {
            return self.start(line, out);
        }
        self.part.answer(line, &mut self.memory, out)
    }
}

// The answers of a part to all lines of standard input, up to one that is too long, and to a read or a write that fails. No clause says what is written: only that it ends.
pub fn run<P: Part + Drop>(rt: HostRuntime, part: P, program: &str) {
    let mut bench = Bench {
        part,
        run: 0,
        memory: Memory::new(),
    };
    let mut input = Input::new(rt);
    let mut out = Output::new(rt);
    for _ in 0..u64::MAX {
        let Some(line) = input.next_line() else {
            break;
        };
        let long = 65536 <= line.len();
        if long || bench.call(line, &mut out).is_none() {
            answers::bad_line(&mut out);
        }
        out.make_room();
        if long || out.failed() {
            break;
        }
    }
    out.finish(program, "the answers are", input.failed());
}
