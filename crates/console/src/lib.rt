// The world outside: pieces come from files or from standard input, rows go to standard output.
#![tactic(auto)]

ghost use Rattle.std.specs.Prelude.{◌≡◌, length, Some};
ghost use Rattle.machine.specs.Drive.{Account};
ghost use Rattle.console.specs.Console.{Few, left_open, Closes, failure, said, silent};

use machine::drive::{Failure, World, drive};
use std::collections::VecDeque;
use std::error::Error;
use std::fs::File;
use std::io::{Read, Write};
use std::process::ExitCode;
use std::{env, fmt, fs};

// Where the next bytes come from.
#[derive(Drop)]
enum Source {
    Input,
    Open(File),
    // The next of the files is to be opened, if there is one.
    Closed,
}

// What went wrong outside.
#[derive(Clone, Copy, Debug, PartialEq, Eq)]
pub enum Trouble {
    Opening,
    Reading,
    Writing,
}

impl fmt::Display for Trouble {
    ghost output = { λ t. Some (failure t) };

    fn fmt<W: fmt::Write>(&self, f: &mut fmt::Formatter<W>) -> fmt::Result {
        f.write_str(match self {
            Trouble::Opening => "failed: opening",
            Trouble::Reading => "failed: reading",
            Trouble::Writing => "failed: writing",
        })
    }
}

impl Error for Trouble {}

// What is said at the end of a run on standard error; nothing, if it is done with 0.
#[derive(Drop)]
struct Verdict(Result<u64, Failure<Trouble>>);

impl Verdict {
    // Whether nothing is said.
    fn is_silent(&self) -> bool
        ensures { result ≡ silent self.now.0 }
    {
        matches!(self.0, Ok(0))
    }
}

impl fmt::Display for Verdict {
    ghost output = { λ v. Some (said v.0) };

    fn fmt<W: fmt::Write>(&self, f: &mut fmt::Formatter<W>) -> fmt::Result {
        match self.0 {
            Ok(0) => Ok(()),
            Ok(k) => write!(f, "done {k}"),
            Err(Failure::Refused(k)) => write!(f, "refused {k}"),
            Err(Failure::TooLong) => write!(f, "refused 1"),
            Err(Failure::Broken(trouble)) => write!(f, "{trouble}"),
            Err(Failure::Endless) => write!(f, "failed: no end"),
            Err(Failure::NoMemory) => write!(f, "failed: no memory"),
        }
    }
}

// Files, one after the other, or standard input if there are none.
#[derive(Drop)]
pub struct Console<'a> {
    rt: &'a HostRuntime,
    // The files that aren't opened yet: one that can't be stays the next.
    names: VecDeque<String>,
    source: Source,
    // Whether the last byte that came was no line's end.
    open_line: bool,
}

impl<'a> Console<'a> {
    pub fn new(rt: &'a HostRuntime, names: Vec<String>) -> Self {
        let source = if names.is_empty() {
            Source::Input
        } else {
            Source::Closed
        };
        Console {
            rt,
            names: VecDeque::from(names),
            source,
            open_line: false,
        }
    }

    // The next file is opened; no bytes come of that.
    fn open_next(&mut self) -> Result<Option<usize>, Trouble>
        ensures { Few result 0 }
    {
        let Some(name) = self.names.front() else {
            return Ok(None);
        };
        let file = File::open(self.rt, name).map_err(|_| Trouble::Opening)?;
        let _opened = self.names.pop_front();
        self.source = Source::Open(file);
        Ok(Some(0))
    }

    // These bytes came, and all of them are the piece: whether a line was left open is seen at the last.
    fn came(&mut self, bytes: &[u8]) -> Option<usize>
        ensures piece { result ≡ Some (length bytes.now) }
        ensures line { self.new.open_line ≡ left_open self.old.open_line bytes.now (length bytes.now) }
    {
        if let Some(last) = bytes.last() {
            self.open_line = *last != b'\n';
        }
        Some(bytes.len())
    }

    // A file has ended: a line never goes across two files, so one that was left open is ended.
    fn end_file(&mut self, into: &mut [u8]) -> Option<usize>
        ensures { Closes self.old.open_line into.old result into.new self.new.open_line }
    {
        self.source = Source::Closed;
        if !self.open_line || into.is_empty() {
            return Some(0);
        }
        self.open_line = false;
        into[0] = b'\n';
        Some(1)
    }
}

impl World for Console<'_> {
    type Error = Trouble;

    // Nothing can be said of what is outside: any world may follow any other.
    ghost account = { record { takes = λ _ _ _. Unit {0}; ends = λ _ _. Unit {0}; shows = λ _ _ _. Unit {0} } };

    fn piece(&mut self, into: &mut [u8]) -> Result<Option<usize>, Trouble> {
        match &mut self.source {
            Source::Closed => self.open_next(),
            Source::Input => match self.rt.stdin().read(into).map_err(|_| Trouble::Reading)? {
                0 => Ok(None),
                n => Ok(Some(n)),
            },
            Source::Open(file) => match file.read(into).map_err(|_| Trouble::Reading)? {
                0 => Ok(self.end_file(into)),
                n => Ok(self.came(&into[..n])),
            },
        }
    }

    fn show(&mut self, row: &[u8]) -> Result<(), Trouble> {
        self.rt
            .stdout()
            .write_all(row)
            .map_err(|_| Trouble::Writing)
    }
}

// What a program of ours was called with: a program of the language, and the names of files.
#[derive(Drop)]
pub struct Command {
    pub program: Vec<u8>,
    pub names: Vec<String>,
}

// `PROGRAM FILE..` or `-f FILE FILE..`; none of these, where there is no program or help is asked for.
pub fn called_with(rt: &HostRuntime) -> anyhow::Result<Option<Command>> {
    let mut args = env::args(rt)?;
    let _own_name = args.next();
    let Some(first) = args.next() else {
        return Ok(None);
    };
    let program = match first.as_str() {
        "--help" => return Ok(None),
        "-f" => {
            let Some(file) = args.next() else {
                return Ok(None);
            };
            fs::read(rt, file)?
        }
        _ => first.into_bytes(),
    };
    let names = args.collect(rt.alloc())?;
    Ok(Some(Command { program, names }))
}

// Runs a program over its files, or over standard input if there are none; what is to be said at its end goes to standard error, and then the process
// is to end with status 1. Without a program the usage is shown.
pub fn run(rt: &HostRuntime, called: Option<Command>, usage: &str) -> anyhow::Result<ExitCode> {
    let Some(Command { program, names }) = called else {
        println!(rt; "{usage}")?;
        return Ok(ExitCode::SUCCESS);
    };
    let verdict = Verdict(drive(&mut Console::new(rt, names), rt.alloc(), program.as_slice()));
    if verdict.is_silent() {
        return Ok(ExitCode::SUCCESS);
    }
    eprintln!(rt; "{verdict}")?;
    Ok(ExitCode::FAILURE)
}

#[cfg(test)]
mod tests;
