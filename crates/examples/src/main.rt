// Runs the worked examples of document 01 that are not marked, by the crates' own calls.
#![tactic(auto)]

ghost use Rattle.stdio.specs.Behind.{Behind};

use midi::Packer;
use refusal::Refusal;
use script::answers;
use stdio::Output;

// A line of one number.
fn show_line(out: &mut Output, n: u64)
    ensures { Behind 21 out.old out.new }
{
    answers::decimal(out, n);
    out.put(b'\n');
}

// A line of the number of a refusal, or of 0.
fn show_refusal<T: Drop>(out: &mut Output, called: &Result<T, Refusal>)
    ensures { Behind 21 out.old out.new }
{
    show_line(
        out,
        match called {
            Ok(_) => 0,
            Err(refusal) => u64::from(refusal.number()),
        },
    );
}

// First pointer 40000FFE, total 4: two bytes there, two from the start of the second page.
fn two_pages(out: &mut Output)
    ensures { Behind 134 out.old out.new }
{
    let mut dynamic = [0u8; 65536];
    let sram = [0u8; 65536];
    let page = [0u8; 4096];
    dynamic[0xFFE] = 11;
    dynamic[0xFFF] = 12;
    dynamic[0x1000] = 99;
    dynamic[0x3000] = 21;
    dynamic[0x3001] = 22;
    dynamic[0x3002] = 99;
    let pointers = [0x4000_0FFEu32, 0x4000_3000, 0, 0, 0, 0, 0, 0, 0];
    let mut bytes = [0u8; 4];
    let copied = transfer::checked_copy_in(&dynamic, &sram, &page, &pointers, 4, &mut bytes, 0);
    out.append(b"two pages: refusal and bytes\n");
    show_refusal(out, &copied);
    for b in bytes {
        show_line(out, u64::from(b));
    }
}

// At 4,092 held MIDI bytes F8 is accepted; at 4,096 it meets 7.
fn queue_space(out: &mut Output, held: usize)
    ensures { Behind 146 out.old out.new }
{
    let mut queue = [0u8; 4096];
    let sent = midi::send(Packer::new(), 0, b"\xF8", &mut queue, held);
    out.append(b"F8 with so many held: refusal, held then, last byte but three\n");
    show_line(out, held as u64);
    show_refusal(out, &sent);
    show_line(out, sent.map_or(held, |after| after.held) as u64);
    show_line(out, u64::from(queue[4092]));
}

fn main(rt: HostRuntime) {
    let mut out = Output::new(rt);
    two_pages(&mut out);
    queue_space(&mut out, 4092);
    queue_space(&mut out, 4096);
    out.finish("examples", "the examples are", false);
}
