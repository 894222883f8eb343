// The command for people: reads its words and files, calls the libraries, and prints.
#![tactic(auto)]

mod command;
mod show;
mod tokens;
mod tree;

use command::{Command, Misuse};
use show::Listing;
use std::alloc::AllocError;
use std::process::ExitCode;
use std::{env, io};

// Why the command ended with status 1.
#[derive(Drop)]
enum Ended {
    // The words were not those of a command.
    Misused(Misuse),
    // A file could not be read.
    Unread(String, io::Error),
    // There was no memory for the tree.
    NoMemory,
    // The source was refused, as the output tells.
    Refused,
    // The output could not be written.
    Failed,
}

impl From<Misuse> for Ended {
    fn from(misuse: Misuse) -> Ended {
        Ended::Misused(misuse)
    }
}

impl From<AllocError> for Ended {
    fn from(_error: AllocError) -> Ended {
        Ended::NoMemory
    }
}

impl From<io::Error> for Ended {
    fn from(_error: io::Error) -> Ended {
        Ended::Failed
    }
}

fn main(rt: HostRuntime) -> ExitCode {
    match run(&rt) {
        Ok(()) => ExitCode::SUCCESS,
        Err(ended) => {
            let _ = complain(&rt, &ended);
            ExitCode::FAILURE
        }
    }
}

fn run(rt: &HostRuntime) -> Result<(), Ended> {
    let mut words = env::args(rt)?;
    let _name = words.next();
    let verb = words.next();
    let file = words.next();
    let more = words.next();
    match command::read(verb, file, more)? {
        Command::Help => {
            println!(rt; "{}", command::HELP)?;
            Ok(())
        }
        Command::Tokens(path) => {
            let bytes = show::source(rt, path)?;
            let source = bytes.as_slice();
            Listing { rt, source }.tokens()
        }
        Command::Tree(path) => {
            let bytes = show::source(rt, path)?;
            let source = bytes.as_slice();
            Listing { rt, source }.tree()
        }
    }
}

// Says what was wrong, but for a refusal, which stands in the output.
fn complain(rt: &HostRuntime, ended: &Ended) -> io::Result<()> {
    match ended {
        Ended::Misused(misuse) => eprintln!(rt; "pedrunchi: {misuse}\n{}", command::HELP),
        Ended::Unread(path, error) => eprintln!(rt; "pedrunchi: cannot read '{path}': {error}"),
        Ended::NoMemory => eprintln!(rt; "pedrunchi: there is no memory for the tree"),
        Ended::Refused | Ended::Failed => Ok(()),
    }
}
