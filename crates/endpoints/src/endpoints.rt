// What a run on endpoints 0 and 2 has, and its answer to each line.
ghost use Rattle.std.specs.Prelude.{◌≤◌};
ghost use Rattle.stdio.specs.Behind.{Behind};

use crate::control::{self, Request, Step};
use crate::frames::{self, Served};
use bench::{Memory, Part, Queue};
use bus::{PAGE, SRAM, View, Windows};
use refusal::Refusal;
use script::words::{self, Words};
use script::{answers, hash};
use stdio::Output;

// A run is of a control request, where there is one, or of a serial host; one that is not live ignores lines up to the next `n`.
#[derive(Drop)]
pub struct Endpoints {
    live: bool,
    line: bool,
    queue: Queue,
    request: Option<Request>,
}

impl Endpoints {
    pub fn new() -> Self {
        Endpoints {
            live: false,
            line: false,
            queue: Queue::new(),
            request: None,
        }
    }

    // `s BYTES`: a serial send, refused where the queue has no room.
    fn serial_send(&mut self, line: &[u8], out: &mut Output) -> Option<()> {
        let room = self.queue.room();
        if 2 * room + 3 < line.len() {
            answers::refused(out, Refusal::Space);
            return Some(());
        }
        let mut buffer = [0u8; 4096];
        let bytes = Words::new(line).bytes(&mut buffer)?;
        if room < bytes.len() {
            return None;
        }
        self.queue.add(bytes);
        answers::outcome(out, Ok(()));
        Some(())
    }

    // A microframe of a control request; its end, or a dropped byte, ends the run.
    fn serve_control(&mut self, windows: &mut Windows<'_>, request: Request, out: &mut Output) {
        let step = control::microframe(windows, request, self.line);
        self.line = step.line;
        self.request = Some(step.request);
        self.live = step.running && !step.dropped;
        if step.dropped {
            out.append(b"outside\n");
            return;
        }
        show_step(step, out);
        show_windows(windows.view(), out);
    }

    // A microframe of a serial host; a dropped byte ends the run.
    fn serve_serial(&mut self, windows: &mut Windows<'_>, out: &mut Output) {
        let mut input = [0u8; 32768];
        let queued = self.queue.as_slice();
        let served = frames::serial(windows, queued, &mut input, self.line);
        self.line = served.line;
        self.live = !served.dropped;
        self.queue.remove(served.sent);
        if served.dropped {
            out.append(b"outside\n");
            return;
        }
        show_served(served, &input, self.queue.held, out);
        show_windows(windows.view(), out);
    }

    // `u TIME`: a microframe; neither kind of run asks the time.
    fn microframe(&mut self, line: &[u8], memory: &mut Memory, out: &mut Output) -> Option<()> {
        let mut words = Words::new(line);
        words.number()?;
        words.end()?;
        let length = memory.length();
        let Memory {
            dynamic,
            sram,
            page,
            ..
        } = memory;
        let used: &mut [u8] = dynamic;
        self.serve(&mut used[..length], sram, page, out);
        Some(())
    }

    // The same over dynamic memory of any length.
    fn serve(
        &mut self,
        dynamic: &mut [u8],
        sram: &mut [u8; SRAM],
        page: &mut [u8; PAGE],
        out: &mut Output,
    ) {
        if !bus::power(dynamic.len()) {
            answers::refused(out, Refusal::Windows);
            return;
        }
        let mut windows = Windows {
            dynamic,
            sram,
            page,
        };
        match self.request {
            Some(request) => self.serve_control(&mut windows, request, out),
            None => self.serve_serial(&mut windows, out),
        }
    }
}

impl Part for Endpoints {
    // The words are SPACE DS MI CDC: where CDC is 0, the run is of a control request.
    fn start(&mut self, words: Words<'_>) {
        let mut words = words;
        for _ in 0..3 {
            let _ = words.word();
        }
        self.live = true;
        self.line = false;
        self.queue.clear();
        self.request = None;
        if words.word() == Some(0) {
            self.request = Some(control::posted());
        }
    }

    fn answer(&mut self, line: &[u8], memory: &mut Memory, out: &mut Output) -> Option<()> {
        if !self.live {
            return Some(());
        }
        let letter = words::letter(line)?;
        match letter {
            b'u' => self.microframe(line, memory, out),
            b's' => self.serial_send(line, out),
            _ => memory.line(letter, line, out),
        }
    }
}

// The hashes of the three windows, and the line's end.
fn show_windows(view: View<'_>, out: &mut Output)
    ensures { Behind 52 out.old out.new }
{
    let View {
        dynamic,
        sram,
        page,
    } = view;
    answers::field(out, hash::hash_all(dynamic));
    answers::field(out, hash::hash_all(sram));
    answers::field(out, hash::hash_all(page));
    out.put(b'\n');
}

// What a serial host's microframe did: the line's flag, bytes received and their hash, and bytes still queued.
fn show_served(served: Served, input: &[u8; 32768], queued: usize, out: &mut Output)
    requires { served.received ≤ 32767 }
    ensures { Behind 54 out.old out.new }
{
    let received = &input[..served.received];
    out.put(b'u');
    answers::flag(out, served.line);
    answers::field(out, received.len() as u64);
    answers::field(out, hash::hash_all(received));
    answers::field(out, queued as u64);
}

// What a request's microframe did: the line's flag, whether it runs, its stage, and its reply's length and hash; one that has ended shows as an
// empty one.
fn show_step(step: Step, out: &mut Output)
    ensures { Behind 41 out.old out.new }
{
    let mut request = step.request;
    if !step.running {
        request = control::posted();
    }
    let reply = request.reply;
    let filled = &reply[..request.filled.min(64)];
    out.put(b'u');
    answers::flag(out, step.line);
    answers::flag(out, step.running);
    answers::flag(out, request.status);
    answers::field(out, filled.len() as u64);
    answers::field(out, hash::hash_all(filled));
}
