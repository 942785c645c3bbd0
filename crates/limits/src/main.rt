// Runs all calls on a host at limits of the numbers of refusal (documents 01 and 02) and one past them: what each answers, and that a refusal changes nothing.
#![tactic(auto)]

mod calls;
mod case;
mod frame;
mod marks;
mod rows;
mod show;

use std::io;

fn list(rt: &impl Print) -> io::Result<()> {
    println!(rt;
        "numbers of microframe, MIDI send, serial send, frame given, frame taken, device read, device write"
    )?;
    show::rows(rt, &rows::lengths())?;
    show::rows(rt, &rows::fields())?;
    show::rows(rt, &rows::cables())?;
    for cable in 0..midi::CABLES as u64 {
        show::rows(rt, &rows::packers(cable))?;
    }
    show::rows(rt, &rows::rings())?;
    show::created(rt, 16)?;
    show::created(rt, 17)
}

fn main(rt: HostRuntime) {
    if list(&rt).is_err() {
        let _ = eprintln!(rt;
            "limits: standard output could not be written; the list is not whole"
        );
    }
}
