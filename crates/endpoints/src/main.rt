// Answers a script of lines from standard input by single runs over the transfer descriptors of endpoints 0 and 2.
#![tactic(auto)]

mod control;
mod endpoints;
mod frames;

fn main(rt: HostRuntime) {
    bench::run(rt, endpoints::Endpoints::new(), "endpoints");
}
