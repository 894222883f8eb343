// The words of the command.
use std::error::Error;
use std::fmt;

pub const HELP: &str =
    "pedrunchi tokens FILE    print the tokens of a rule, or why it is refused\npedrunchi tree FILE      print the tree of a rule, or why it is refused\npedrunchi help           print this";

// What is asked for.
#[derive(Drop)]
pub enum Command {
    Help,
    Tokens(String),
    Tree(String),
}

// Why the words are not those of a command.
#[derive(Debug, Drop)]
pub enum Misuse {
    // No command has this name.
    Unknown(String),
    // A file's name is missing, or there are more words behind it.
    NoFile,
}

impl fmt::Display for Misuse {
    fn fmt<W: fmt::Write>(&self, f: &mut fmt::Formatter<W>) -> fmt::Result {
        match self {
            Misuse::Unknown(word) => write!(f, "there is no command '{word}'"),
            Misuse::NoFile => f.write_str("the name of one file is wanted"),
        }
    }
}

impl Error for Misuse {}

// The command that the words make.
pub fn read(
    verb: Option<String>,
    file: Option<String>,
    more: Option<String>,
) -> Result<Command, Misuse> {
    let Some(verb) = verb else {
        return Ok(Command::Help);
    };
    match verb.as_str() {
        "help" | "--help" | "-h" => Ok(Command::Help),
        "tokens" => Ok(Command::Tokens(one_file(file, more)?)),
        "tree" => Ok(Command::Tree(one_file(file, more)?)),
        _ => Err(Misuse::Unknown(verb)),
    }
}

// The one file that is named.
fn one_file(file: Option<String>, more: Option<String>) -> Result<String, Misuse> {
    match (file, more) {
        (Some(path), None) => Ok(path),
        _ => Err(Misuse::NoFile),
    }
}
