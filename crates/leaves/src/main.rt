// Answers a script of lines from standard input by the calls of the leaf crates: registers, timers, MIDI sends and the memory windows.
#![tactic(auto)]

mod leaves;

fn main(rt: HostRuntime) {
    bench::run(rt, leaves::Leaves::new(), "leaves");
}
