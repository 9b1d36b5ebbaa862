//! A heap with a debugger's commands: `heapdbg run` answers commands from standard input on standard output, `heapdbg explore`
//! answers questions too, `heapdbg save` dumps the state that is left, `heapdbg serve` answers the commands of clients on
//! sockets, `heapdbg ask` is such a client, and `heapdbg fetch` is a client of their dumps.
#![tactic(auto)]

mod ask;
mod fetch;
mod page_exploration;
mod ports;
mod serve;
mod served_heap;
mod task;
mod watched_seat;

use private_tasks::{Terminals, report};
use std::io::IsTerminal;
use std::process::ExitCode;

// Runs the program, and reports its failure, if any, on standard error, or a text that is asked for on standard output.
fn main(rt: HostRuntime) -> ExitCode {
    let terminals = Terminals {
        input: rt.stdin().is_terminal(),
        output: rt.stdout().is_terminal(),
        error: rt.stderr().is_terminal(),
    };
    let done = task::perform(&rt, terminals);
    report(&mut rt.stdout(), &mut rt.stderr(), &done)
}
