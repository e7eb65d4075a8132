// A report over files: runs a program over their lines, and prints what it writes.
#![tactic(auto)]

use std::process::ExitCode;

const USAGE: &str = "usage: report PROGRAM [FILE..]
       report -f PROGRAM-FILE [FILE..]
Runs a program over the lines of the files, or of standard input.";

fn main(rt: HostRuntime) -> anyhow::Result<ExitCode> {
    console::run(&rt, console::called_with(&rt)?, USAGE)
}
