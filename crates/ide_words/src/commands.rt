//! The commands of the program, as `clap` is to read them.
ghost use Rattle.std.specs.Prelude.{◌≡◌, [], false, IfOk};
ghost use Rattle.clap.specs.Words.{app_of, rule_of};
ghost use Rattle.ide_words.specs.Commands.{HasShape, IsCreate, IsExplain, IsIdesolve, IsOnce, IsOnceAlone, ask, check, checkpoint_every, command, defaulted, load, number_between, on_store, quiet, root, wanted, work, workers};

use crate::words::{INSTANCES, NAMES};
use clap::builder::ValueParser;
use clap::{Arg, ArgAction, Command, Error};
use std::alloc::Global;

/// What stands below the list of commands.
const HELP: &str = "Example: idesolve once copy FILE main

Status 0: the answer is on the standard output. Status 1: refused, for the reason on the standard
error, or the output could not be written. Status 2: the words are no command.";

/// What stands below the words of `once` and of `create`.
const ANALYSES: &str = "uninit  variables that may be read before they are written
copy    constants, through numbers and copies
shift   constants, through sums and differences with a number too";

/// What the commands on a store do that take no other word.
const ADOPT: &str = "Goes on with a store of one file: makes its second file";

const CHECKPOINT: &str = "Writes the image into the store's other file, and prints its generation";

const MIGRATE: &str = "Writes a store of an older version anew, and prints its version";

const DUMP: &str = "Prints all values";

const STATUS: &str = "Prints how far the store has come";

/// The most workers.
const MOST_WORKERS: u64 = 64;
/// The most records up to a checkpoint.
const MOST_RECORDS: u64 = 4_294_967_295;
/// The last position that a word may spell.
const LAST_POSITION: u64 = 4_294_967_295;

/// The command line of the program.
pub(crate) fn idesolve<'a>(alloc: Global) -> Result<Command<'a>, Error>
    ensures { IfOk result (λ command. IsIdesolve (app_of command)) }
{
    Ok(
        Command::new(alloc, "idesolve")
            .about("Solves interprocedural distributive environment problems")
            .version("0.1.0")
            .after_help(HELP)
            .subcommand_required(true)
            .subcommand(once(alloc)?)?
            .subcommand(check(alloc)?)?
            .subcommand(explain(alloc)?)?
            .subcommand(create(alloc)?)?
            .subcommand(on_store(alloc, "adopt", ADOPT)?)?
            .subcommand(load(alloc)?)?
            .subcommand(root(alloc)?)?
            .subcommand(work(alloc)?)?
            .subcommand(on_store(alloc, "checkpoint", CHECKPOINT)?)?
            .subcommand(on_store(alloc, "migrate", MIGRATE)?)?
            .subcommand(ask(alloc)?)?
            .subcommand(on_store(alloc, "dump", DUMP)?)?
            .subcommand(on_store(alloc, "status", STATUS)?)?,
    )
}

/// `once INSTANCE FILE PROC --workers N`
fn once<'a>(alloc: Global) -> Result<Command<'a>, Error>
    ensures { IfOk result IsOnce }
{
    let command = once_alone(alloc)?;
    Ok(command.arg(workers(alloc))?)
}

/// `once INSTANCE FILE PROC`
fn once_alone<'a>(alloc: Global) -> Result<Command<'a>, Error>
    ensures { IfOk result IsOnceAlone }
{
    let instance = required(alloc, "INSTANCE", "The analysis").value_parser(INSTANCES.as_slice());
    let about = "Solves a program text in memory and prints the values";
    Ok(
        command(alloc, "once", about)
            .after_help(ANALYSES)
            .arg(instance)?
            .arg(required(alloc, "FILE", "The program text"))?
            .arg(required(alloc, "PROC", "The root procedure"))?,
    )
}

/// `check FILE`
fn check<'a>(alloc: Global) -> Result<Command<'a>, Error>
    ensures { IfOk result (HasShape check) }
{
    let about = "Reads a program text and prints its counts, or its first fault";
    Ok(command(alloc, "check", about).arg(required(alloc, "FILE", "The program text"))?)
}

/// `explain NAME`
fn explain<'a>(alloc: Global) -> Result<Command<'a>, Error>
    ensures { IfOk result IsExplain }
{
    let name = required(alloc, "NAME", "E1 to E16, or F1 to F10").value_parser(NAMES.as_slice());
    Ok(command(alloc, "explain", "Prints what a refusal or a fault means").arg(name)?)
}

/// `create STORE INSTANCE`
fn create<'a>(alloc: Global) -> Result<Command<'a>, Error>
    ensures { IfOk result IsCreate }
{
    let instance = required(alloc, "INSTANCE", "The analysis").value_parser(INSTANCES.as_slice());
    let about = "Makes a store with no program; old files of its name are replaced";
    let command = on_store(alloc, "create", about)?;
    Ok(command.after_help(ANALYSES).arg(instance)?)
}

/// `load STORE FILE`
fn load<'a>(alloc: Global) -> Result<Command<'a>, Error>
    ensures { IfOk result (HasShape load) }
{
    let command = on_store(alloc, "load", "Stores a program text")?;
    Ok(command.arg(required(alloc, "FILE", "The program text"))?)
}

/// `root STORE PROC`
fn root<'a>(alloc: Global) -> Result<Command<'a>, Error>
    ensures { IfOk result (HasShape root) }
{
    let command = on_store(alloc, "root", "Stores a procedure as a root")?;
    Ok(command.arg(required(alloc, "PROC", "The root procedure"))?)
}

/// `work STORE --workers N --quiet --checkpoint-every RECORDS`
fn work<'a>(alloc: Global) -> Result<Command<'a>, Error>
    ensures { IfOk result (HasShape work) }
{
    let command = on_store(alloc, "work", "Does what is pending, and stores it")?;
    Ok(
        command
            .arg(workers(alloc))?
            .arg(quiet(alloc))?
            .arg(checkpoint_every(alloc))?,
    )
}

/// `ask STORE PROC NODE FACT`
fn ask<'a>(alloc: Global) -> Result<Command<'a>, Error>
    ensures { IfOk result (HasShape ask) }
{
    let position = required(alloc, "NODE", "The position in it, from 0 on");
    let about = "Prints the value of a fact at a position of a procedure";
    Ok(
        on_store(alloc, "ask", about)?
            .arg(required(alloc, "PROC", "The procedure"))?
            .arg(number_between(position, 0, LAST_POSITION))?
            .arg(required(alloc, "FACT", "A variable, @zero or @result"))?,
    )
}

/// A command on a store.
fn on_store<'a>(alloc: Global, name: &'a str, about: &'a str) -> Result<Command<'a>, Error>
    ensures { IfOk result (HasShape (on_store name.now [])) }
{
    Ok(command(alloc, name, about).arg(required(alloc, "STORE", "The store's file"))?)
}

/// A command that takes no word.
fn command<'a>(alloc: Global, name: &'a str, about: &'a str) -> Command<'a>
    ensures { HasShape (command name.now []) result }
{
    Command::new(alloc, name).about(about)
}

/// A word that has to be given.
fn required<'a>(alloc: Global, name: &'a str, help: &'a str) -> Arg<'a>
    ensures rule { rule_of result ≡ wanted name.now }
    ensures local { result.global ≡ false }
{
    Arg::new(alloc, name)
        .help(help)
        .required(true)
        .action(ArgAction::Set)
}

/// The same, as a number from the one up to the other.
fn number_between<'a>(word: Arg<'a>, least: u64, most: u64) -> Arg<'a>
    ensures rule { rule_of result ≡ number_between least most (rule_of word.entry) }
    ensures local { result.global ≡ word.entry.global }
{
    word.value_parser(ValueParser::unsigned(least, most))
}

/// `--workers N`
fn workers<'a>(alloc: Global) -> Arg<'a>
    ensures rule { rule_of result ≡ workers }
    ensures local { result.global ≡ false }
{
    let count = defaulted(alloc, "N", "workers", "1").help("How many workers, 1 to 64");
    number_between(count, 1, MOST_WORKERS)
}

/// `--quiet`
fn quiet<'a>(alloc: Global) -> Arg<'a>
    ensures rule { rule_of result ≡ quiet }
    ensures local { result.global ≡ false }
{
    Arg::new(alloc, "quiet")
        .long("quiet")
        .help("Leaves out the progress on the standard error")
        .action(ArgAction::SetTrue)
}

/// `--checkpoint-every RECORDS`
fn checkpoint_every<'a>(alloc: Global) -> Arg<'a>
    ensures rule { rule_of result ≡ checkpoint_every }
    ensures local { result.global ≡ false }
{
    let help = "A checkpoint after so many records";
    let records = defaulted(alloc, "RECORDS", "checkpoint-every", "1024").help(help);
    number_between(records, 1, MOST_RECORDS)
}

/// A word behind an option, which is the default where the option is left out.
fn defaulted<'a>(alloc: Global, name: &'a str, option: &'a str, default: &'a str) -> Arg<'a>
    ensures rule { rule_of result ≡ defaulted name.now option.now default.now }
    ensures local { result.global ≡ false }
{
    Arg::new(alloc, name)
        .long(option)
        .action(ArgAction::Set)
        .default_value(default)
}
