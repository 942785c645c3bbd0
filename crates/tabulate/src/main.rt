// Runs the script on standard input by the host's calls, and writes a table of what each run counted.
#![tactic(auto)]

fn main(rt: HostRuntime) {
    reader::tabulate(rt);
}
