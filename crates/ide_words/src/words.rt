//! The words of the command line.
ghost use Rattle.std.specs.Prelude.{◌≡◌, IfOk, IfSome, map};
ghost use Rattle.ide_words.specs.Commands.{name_of};
ghost use Rattle.ide_words.specs.Line.{IsCommand, IsOfLine, IsStoreCommand, SpellsNumber, given_rows, given_words};
ghost use Rattle.ide_words.specs.declared.words.Instance.{Instance};

use crate::commands::idesolve;
use clap::error::ErrorKind;
use clap::{ArgMatches, Error};
use std::alloc::Global;
use std::convert::AsStr;

/// A command with its words.
#[derive(Clone, Copy, PartialEq, Eq, Debug)]
pub enum Words<'a> {
    /// `once INSTANCE FILE PROC --workers N`
    Once {
        instance: Instance,
        file: &'a str,
        procedure: &'a str,
        workers: usize,
    },
    /// `check FILE`
    Check {
        file: &'a str,
    },
    /// `explain NAME`
    Explain {
        name: &'a str,
    },
    /// `create STORE INSTANCE`
    Create {
        store: &'a str,
        instance: Instance,
    },
    /// `adopt STORE`: apart from the commands on a store, since it opens one in another way.
    Adopt {
        store: &'a str,
    },
    /// A command on the store in that file.
    On {
        store: &'a str,
        command: StoreCommand<'a>,
    },
}

/// What is asked of a store, behind the word STORE.
#[derive(Clone, Copy, PartialEq, Eq, Debug)]
pub enum StoreCommand<'a> {
    /// `load STORE FILE`
    Load {
        file: &'a str,
    },
    /// `root STORE PROC`
    Root {
        procedure: &'a str,
    },
    /// `work STORE --workers N --quiet --checkpoint-every RECORDS`
    Work {
        workers: usize,
        quiet: bool,
        checkpoint_every: u32,
    },
    /// `checkpoint STORE`
    Checkpoint,
    /// `migrate STORE`
    Migrate,
    /// `ask STORE PROC NODE FACT`
    Ask {
        procedure: &'a str,
        position: u32,
        fact: &'a str,
    },
    /// `dump STORE`
    Dump,
    /// `status STORE`
    Status,
}

/// The analyses that a command line may name.
#[derive(Clone, Copy, PartialEq, Eq, Debug)]
pub enum Instance {
    /// `uninit`: variables that may be read before they are written.
    Uninit,
    /// `copy`: copy constants.
    Copy,
    /// `shift`: constants through sums and differences too.
    Shift,
}

/// The names of the analyses.
pub(crate) static INSTANCES: [&str; 3] = ["uninit", "copy", "shift"];

/// The names of refusals and of faults that can be asked for.
pub static NAMES: [&str; 26] = [
    "E1", "E2", "E3", "E4", "E5", "E6", "E7", "E8", "E9", "E10", "E11", "E12", "E13", "E14", "E15",
    "E16", "F1", "F2", "F3", "F4", "F5", "F6", "F7", "F8", "F9", "F10",
];

impl Instance {
    /// The analysis of that name, one of [`INSTANCES`].
    fn of(name: &str) -> Instance
        ensures { (instance : Instance) → name.now ≡ name_of instance → result ≡ instance }
    {
        match name {
            "uninit" => Instance::Uninit,
            "shift" => Instance::Shift,
            _ => Instance::Copy,
        }
    }
}

/// The command of a line whose first word is the program's name. Any other line is an error of
/// `clap`, as is one that asks for help.
pub fn read_words<'a, S: AsStr>(alloc: Global, line: &'a [S]) -> Result<Words<'a>, Error>
    // The line has no fault, and the answer is the command that it names, with its words.
    ensures { IfOk result (IsOfLine (map S.text line.entry.now)) }
{
    let mut command = idesolve(alloc)?;
    let matches = command.try_get_matches_from_mut(line)?;
    if let Some((name, given)) = matches.subcommand() {
        if let Some(words) = words_of(name, given) {
            return Ok(words);
        }
    }
    Err(command.error(ErrorKind::InvalidSubcommand, "there is no such command")?)
}

/// The command of that name with the words that were given for it. There is always one where `clap`
/// found no fault.
fn words_of<'a>(name: &str, given: &ArgMatches<'a>) -> Option<Words<'a>>
    ensures { IfSome result (λ words. IsCommand words name.now (given_rows given.now)) }
{
    let words = match name {
        "once" => Words::Once {
            instance: Instance::of(text_of(given, "INSTANCE")),
            file: text_of(given, "FILE"),
            procedure: text_of(given, "PROC"),
            workers: number_of(given, "N")? as usize,
        },
        "check" => Words::Check {
            file: text_of(given, "FILE"),
        },
        "explain" => Words::Explain {
            name: text_of(given, "NAME"),
        },
        "create" => Words::Create {
            store: text_of(given, "STORE"),
            instance: Instance::of(text_of(given, "INSTANCE")),
        },
        "adopt" => Words::Adopt {
            store: text_of(given, "STORE"),
        },
        _ => Words::On {
            store: text_of(given, "STORE"),
            command: store_command(name, given)?,
        },
    };
    Some(words)
}

/// The same of the commands on a store that is there.
fn store_command<'a>(name: &str, given: &ArgMatches<'a>) -> Option<StoreCommand<'a>>
    ensures { IfSome result (λ command. IsStoreCommand command name.now (given_rows given.now)) }
{
    let command = match name {
        "load" => StoreCommand::Load {
            file: text_of(given, "FILE"),
        },
        "root" => StoreCommand::Root {
            procedure: text_of(given, "PROC"),
        },
        "work" => StoreCommand::Work {
            workers: number_of(given, "N")? as usize,
            quiet: text_of(given, "quiet") == "true",
            checkpoint_every: number_of(given, "RECORDS")?,
        },
        "checkpoint" => StoreCommand::Checkpoint,
        "migrate" => StoreCommand::Migrate,
        "ask" => StoreCommand::Ask {
            procedure: text_of(given, "PROC"),
            position: number_of(given, "NODE")?,
            fact: text_of(given, "FACT"),
        },
        "dump" => StoreCommand::Dump,
        "status" => StoreCommand::Status,
        _ => return None,
    };
    Some(command)
}

/// The text of a word that was given.
fn text_of<'a>(matches: &ArgMatches<'a>, name: &str) -> &'a str
    ensures { result.now ≡ given_words name.now (given_rows matches.now) }
{
    matches.get_str(name).unwrap_or("")
}

/// The number that a word spells.
fn number_of<'a>(matches: &ArgMatches<'a>, name: &str) -> Option<u32>
    ensures { IfSome result (SpellsNumber (given_words name.now (given_rows matches.now))) }
{
    text_of(matches, name).parse::<u32>().ok()
}
