//! Plays a script of RDM commands on a responder: the script is read from standard input, and the trace of what went
//! over the bus is written to standard output.
#![tactic(auto)]

use rdm_script::run_program;
use std::io;
use std::process::ExitCode;

fn main(rt: HostRuntime) -> ExitCode {
    run_program(
        rt,
        rt.alloc(),
        &mut rt.reader(),
        &mut io::writer(&rt),
        &mut rt.stderr(),
    )
}
