// ibermarc21: what a library network runs on its exports.
#![tactic(auto)]

mod checking;
mod copying;
mod files;
mod showing;
mod words;

use checking::check_files;
use copying::copy_files;
use files::visit_files;
use showing::Showing;
use std::env::Args;
use std::error::Error;
use std::process::ExitCode;
use std::str::FromStr;
use std::{env, fmt, io};

// What the program is asked to do with the files.
#[derive(Clone, Copy)]
enum Command {
    Check,
    Show,
    Copy,
}

// What is said where the words are no command, or not so many files as it takes.
#[derive(Clone, Copy, Debug)]
struct Usage;

impl fmt::Display for Usage {
    fn fmt<W: fmt::Write>(&self, f: &mut fmt::Formatter<W>) -> fmt::Result {
        f.write_str("usage: ibermarc21 check FILE... | show FILE... | copy FILE TO")
    }
}

impl Error for Usage {}

impl FromStr for Command {
    type Err = Usage;

    fn from_str(word: &str) -> Result<Command, Usage> {
        match word {
            "check" => Ok(Command::Check),
            "show" => Ok(Command::Show),
            "copy" => Ok(Command::Copy),
            _ => Err(Usage),
        }
    }
}

impl Command {
    // Whether it takes so many files.
    fn takes(self, files: usize) -> bool {
        match self {
            Command::Check | Command::Show => files > 0,
            Command::Copy => files == 2,
        }
    }

    // Runs the command. Whether each export was read to its end.
    fn run(self, rt: &HostRuntime, files: Args) -> anyhow::Result<bool> {
        match self {
            Command::Check => check_files(rt, files),
            Command::Show => visit_files(rt, files, &mut Showing),
            Command::Copy => copy_files(rt, files),
        }
    }
}

fn main(rt: HostRuntime) -> io::Result<ExitCode> {
    let mut args = env::args(&rt)?;
    match command_of(&mut args) {
        Ok(command) => finish(&rt, command.run(&rt, args)),
        Err(usage) => {
            eprintln!(rt; "{usage}")?;
            Ok(ExitCode::FAILURE)
        }
    }
}

// The command that the word after the program's name means, where it takes so many files as follow.
fn command_of(args: &mut Args) -> Result<Command, Usage> {
    let word = args.nth(1).ok_or(Usage)?;
    let command = word.parse::<Command>()?;
    if command.takes(args.len()) {
        Ok(command)
    } else {
        Err(Usage)
    }
}

// How the program ends after a command.
fn finish(rt: &HostRuntime, done: anyhow::Result<bool>) -> io::Result<ExitCode> {
    match done {
        Ok(true) => Ok(ExitCode::SUCCESS),
        Ok(false) => Ok(ExitCode::FAILURE),
        Err(error) => {
            eprintln!(rt; "ibermarc21: {error}")?;
            Ok(ExitCode::FAILURE)
        }
    }
}
