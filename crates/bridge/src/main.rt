// The weighing bridge's screen: runs a program over lines as they come on standard input. Whatever the whole lines so far are meant to write is
// written before the next bytes are waited for.
#![tactic(auto)]

use std::process::ExitCode;

const USAGE: &str = "usage: bridge PROGRAM
       bridge -f PROGRAM-FILE
Runs a program over lines as they come on standard input.";

fn main(rt: HostRuntime) -> anyhow::Result<ExitCode> {
    let called = console::called_with(&rt)?.filter(|command| command.names.is_empty());
    console::run(&rt, called, USAGE)
}
