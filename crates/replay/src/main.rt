// Runs the script on standard input by the host's calls, and writes the log of what they did.
#![tactic(auto)]

fn main(rt: HostRuntime) {
    reader::replay(rt);
}
