//! Commands: what each does, and what it prints.
ghost use Rattle.std.specs.Prelude.{◌≡◌, ◌⊎◌, ◌++◌, false, IsErr, IsOk, IsTrue, OnErr, OnOk, map};
ghost use Rattle.std.specs.Io.KnownBytes.{Appends};
ghost use Rattle.ide_cli.specs.Dump.{WritesBest, WritesSomeBest};
ghost use Rattle.ide_cli.specs.Ended.{IsDone, IsRefused};
ghost use Rattle.ide_cli.specs.Explained.{explained};
ghost use Rattle.ide_cli.specs.Help.{AsksForHelp, is_help_word};
ghost use Rattle.ide_cli.specs.Printed.{AppendsAnswer, is_once};

use crate::explain::meaning_of;
use crate::failure::{Failure, read_file};
use crate::stores::{SECOND, adopt, create, dump, obey};
use clap::error::ErrorKind;
use ide_commands::check;
use ide_instances::{CopyConst, ShiftConst, Uninit};
use ide_solver::solve_onto;
use ide_wire::Refused;
use ide_words::{Instance, StoreCommand, Words, read_words};
use std::convert::AsStr;
use std::fs::{File, Files};
use std::io;
use std::io::{Stderr, Write};
use std::sync::Wait;
use std::thread::Threads;
use std::time::Clock;

/// The status of a run that did what it was asked.
const DONE: u8 = 0;
/// The status of a run that was refused, or whose output could not be written.
const REFUSED: u8 = 1;
/// The status where the words are none of the program's.
const WRONG_WORDS: u8 = 2;

/// Runs the command of a line, whose first word is the program's name, and answers the status.
/// Nothing is written to `out` but the answer of the command, and that not before it can be refused no more: a dump
/// is written in pieces, while its values are filled. A command that takes long tells on the terminal, if there is
/// one, how far it has come.
pub(crate) fn run<R, S: AsStr, O: Write, E: Write>(
    rt: &R,
    line: &[S],
    terminal: Option<Stderr>,
    out: &mut O,
    err: &mut E,
) -> u8
where
    R: Files<File = File> + AllocGlobal + Threads + Wait + Clock + Sync,
    ensures status { (result ≡ DONE) ⊎ (result ≡ REFUSED) ⊎ (result ≡ WRONG_WORDS) }
    ensures done { result ≡ DONE → err.new ≡ err.old }
    ensures answered { result ≡ DONE
        → IsDone (map S.text line.now) (O.contents out.old) (O.contents out.new) }
    ensures refused { result ≡ REFUSED
        → IsRefused (map S.text line.now) out.old out.new err.old err.new }
    ensures wrong_words { result ≡ WRONG_WORDS → out.new ≡ out.old }
{
    let words = match read_words(rt.alloc(), line) {
        Ok(words) => words,
        Err(error) => return refuse_words(&error, line, out, err),
    };
    if let Words::Once {
        instance,
        file,
        procedure,
        workers,
    } = words
    {
        return match once(rt, instance, file, procedure, workers, out) {
            Ok(written) => status_of(DONE, written),
            Err(failure) => refuse(&failure, err),
        };
    }
    if let Words::On {
        store,
        command: StoreCommand::Dump,
    } = words
    {
        return match dump(rt, store, out) {
            Ok(written) => status_of(DONE, written),
            Err(failure) => refuse(&failure, err),
        };
    }
    let mut text = Vec::new(rt.alloc());
    match answer(rt, words, terminal, &mut text) {
        Ok(()) => print(out, text.as_slice()),
        Err(failure) => refuse(&failure, err),
    }
}

/// Prints on the standard error why a command has no answer.
fn refuse<E: Write>(failure: &Failure, err: &mut E) -> u8
    ensures { result ≡ REFUSED }
{
    match failure {
        Failure::CannotRead(file) => status_of(REFUSED, writeln!(err, "cannot read {file}")),
        Failure::CannotReadSecond(store) => {
            status_of(REFUSED, writeln!(err, "cannot read {store}{SECOND}"))
        }
        Failure::Refused(refused) => status_of(REFUSED, writeln!(err, "{refused}")),
    }
}

/// Prints why the words are no command: help on the output, where the line asks for it, and a mistake on the
/// standard error.
fn refuse_words<S: AsStr, O: Write, E: Write>(
    error: &clap::Error,
    line: &[S],
    out: &mut O,
    err: &mut E,
) -> u8
    ensures status { (result ≡ DONE) ⊎ (result ≡ REFUSED) ⊎ (result ≡ WRONG_WORDS) }
    ensures done { result ≡ DONE → err.new ≡ err.old }
    ensures asked { result ≡ DONE → AsksForHelp (map S.text line.now) }
    ensures refused { result ≡ REFUSED
        → IsRefused (map S.text line.now) out.old out.new err.old err.new }
    ensures wrong_words { result ≡ WRONG_WORDS → out.new ≡ out.old }
{
    if error.kind() == ErrorKind::OutOfMemory {
        status_of(REFUSED, writeln!(err, "{}", Refused::NoMemory))
    } else if error.use_stderr() || !asks_for_help(line) {
        status_of(WRONG_WORDS, write!(err, "{error}"))
    } else {
        status_of(DONE, write!(out, "{error}"))
    }
}

/// Whether a word of the line may ask for help, or for the version.
fn asks_for_help<S: AsStr>(line: &[S]) -> bool
    ensures { IsTrue result → AsksForHelp (map S.text line.now) }
{
    for word in line {
        if is_help_word(word.as_str()) {
            return true;
        }
    }
    false
}

/// Whether the word may ask for help, or for the version.
fn is_help_word(word: &str) -> bool
    ensures { result ≡ is_help_word word.now }
{
    word == "help"
        || word == "--help"
        || word == "--version"
        || word.starts_with("-h")
        || word.starts_with("-V")
}

/// The status, or that of a refusal where the text could not be written.
fn status_of(status: u8, written: io::Result<()>) -> u8
    ensures written { IsOk written → result ≡ status }
    ensures failed { IsErr written → result ≡ REFUSED }
{
    match written {
        Ok(()) => status,
        Err(_) => REFUSED,
    }
}

/// Writes the text, and answers whether that was done.
fn print<O: Write>(out: &mut O, text: &[u8]) -> u8
    ensures status { (result ≡ DONE) ⊎ (result ≡ REFUSED) }
    ensures done { result ≡ DONE → Appends (O.contents out.old) (O.contents out.new) text.now }
{
    status_of(DONE, write_out(out, text))
}

/// Writes all of the text.
fn write_out<O: Write>(out: &mut O, text: &[u8]) -> io::Result<()>
    ensures { OnOk result (Appends (O.contents out.old) (O.contents out.new) text.now) }
{
    out.write_all(text)?;
    out.flush()
}

/// Appends what a command prints that is not `once`.
fn answer<'a, R: Files<File = File> + AllocGlobal + Threads + Wait + Clock + Sync>(
    rt: &R,
    words: Words<'a>,
    terminal: Option<Stderr>,
    out: &mut Vec<u8>,
) -> Result<(), Failure<'a>>
    requires { is_once words ≡ false }
    ensures { OnOk result (AppendsAnswer words.entry out.old out.new) }
{
    match words {
        Words::Once { .. } => unreachable!(),
        Words::Check { file } => {
            let text = read_file(rt, file)?;
            check(rt.alloc(), text.as_slice(), out)?;
            Ok(())
        }
        Words::Explain { name } => Ok(explain(name, out)?),
        Words::Create { store, instance } => create(rt, store, instance, out),
        Words::Adopt { store } => adopt(rt, store, out),
        Words::On { store, command } => obey(rt, store, command, terminal, out),
    }
}

/// Appends what the name of a refusal or a fault means.
fn explain(name: &str, out: &mut Vec<u8>) -> Result<(), Refused>
    ensures { OnOk result (out.new.items ≡ out.old.items ++ explained name.now) }
{
    out.extend_from_slice(meaning_of(name).as_bytes())?;
    out.extend_from_slice(b"\n")?;
    Ok(())
}

/// Writes the dump of the program that the file spells, by that analysis and with that root. Inside is how
/// the output did.
fn once<'a, R: Files<File = File> + AllocGlobal + Threads + Sync, O: Write>(
    rt: &R,
    instance: Instance,
    file: &'a str,
    procedure: &str,
    workers: usize,
    out: &mut O,
) -> Result<io::Result<()>, Failure<'a>>
    ensures written { WritesSomeBest instance procedure.now result O.contents out.old out.new }
    ensures unchanged { OnErr result (out.new ≡ out.old) }
{
    let text = read_file(rt, file)?;
    let root = procedure.as_bytes();
    Ok(solve_by(rt, instance, text, root, workers, out)?)
}

/// Writes the dump of the program that the text spells, by that analysis and with that root. So many
/// workers fill the values. Inside is how the output did.
fn solve_by<R: AllocGlobal + Threads + Sync, O: Write>(
    rt: &R,
    instance: Instance,
    text: Vec<u8>,
    root: &[u8],
    workers: usize,
    out: &mut O,
) -> Result<io::Result<()>, Refused>
    ensures written { WritesBest instance text.items root.now result O.contents out.old out.new }
    ensures unchanged { OnErr result (out.new ≡ out.old) }
{
    let alloc = rt.alloc();
    let roots = [root];
    match instance {
        Instance::Uninit => solve_onto::<R, Uninit, O>(rt, alloc, text, &roots, workers, out),
        Instance::Copy => solve_onto::<R, CopyConst, O>(rt, alloc, text, &roots, workers, out),
        Instance::Shift => solve_onto::<R, ShiftConst, O>(rt, alloc, text, &roots, workers, out),
    }
}
