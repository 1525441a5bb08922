//! The program `idesolve`.
//!
//! `main` hands the words of the command line to [`run::run`] with the two standard streams, and with the
//! second of them once more where it is a terminal, and ends with the status that it answers.
#![tactic(auto)]

mod explain;
mod failure;
mod run;
mod stores;
mod telling;
mod working;

use std::io::IsTerminal;
use std::process::ExitCode;
use std::{env, io};

fn main(rt: HostRuntime) -> io::Result<ExitCode> {
    let alloc = rt.alloc();
    let words: Vec<String> = env::args(&rt)?.collect(alloc)?;
    let mut out = io::writer(&rt);
    let mut err = rt.stderr();
    let terminal = err.is_terminal().then_some(err);
    let status = run::run(&rt, words.as_slice(), terminal, &mut out, &mut err);
    Ok(ExitCode::from(status))
}
