//! What a solve and a journal amount to, for `bench/`, which times this program:
//!
//! - `solve FILE` solves the program text of the file by copy constants with `main` as the root, and
//!   prints how many nodes, facts, keys and tasks there were;
//! - `parse FILE`, `graph FILE` and `tabulate FILE` do the same work up to that phase alone, and
//!   print the procedures, the nodes and facts, and what `solve` prints;
//! - `print FILE` solves the text and makes the dump of its values, and prints how long that is;
//! - `fill FILE WORKERS` does so with so many workers, and prints the microseconds of the clock that start values, the
//!   fill and the dump took;
//! - `keep FILE` solves as far as `tabulate`, in a store on two disks in memory, and prints how many records
//!   were stored, how long the disks are, and how many keys there were;
//! - `resume FILE` does so, opens the store from its disks and prints the same of it;
//! - `checkpoint FILE` does what `keep` does, makes a checkpoint and prints the same;
//! - `bytes FILE` does what `keep` does and copies the bytes of the first disk once;
//! - `work FILE WORKERS KEYS AHEAD` does what `keep` does, with so many workers, each of which has so many keys at once and
//!   does so many tasks in one hold of the store's lock, and one that writes;
//! - `dear FILE WORKERS KEYS AHEAD` does so by an analysis whose functions are dear: half a microsecond a part, ten parts
//!   a task;
//! - `run FILE ANALYSIS` does the tasks of the text by that analysis, `uninit`, `copy` or `shift`, each with a claim, and prints
//!   how many keys, tasks and parts there were;
//! - `scatter LENGTH COUNT` writes to so many places of a table of that many bytes, each picked by chance;
//! - `append LENGTH COUNT` stores so many records with bodies of that length in a journal on a disk
//!   in memory, and prints how many there are and how long the file is;
//! - `reopen LENGTH COUNT` does so and reads them back;
//! - `copy LENGTH COUNT` copies as many bytes once;
//! - `spell VERSION MEMBERS COUNT` spells a batch of 65,536 items so often, in that version of a
//!   store, 1 or 2, where so many items share a node, and prints how many bytes it has;
//! - `read VERSION MEMBERS COUNT` reads it so often, and `recopy VERSION MEMBERS COUNT` copies its
//!   bytes so often, one by one.
#![tactic(auto)]

mod batches;
mod counts;
mod dear;
mod figures;
mod fills;
mod pace;
mod phases;
mod plain_disk;
mod records;
mod runs;
mod stores;

use anyhow::{Context, Result, bail};
use batches::{Batches, copy_each, read, spell};
use figures::print_figures;
use fills::{Steps, time_fill};
use ide_graph::Graph;
use ide_journal::Version;
use pace::scatter;
use phases::{count_procedures, graph_of, measure_dump, solve, tabulate};
use records::{Sizes, append, copy, reopen};
use runs::{RunCounts, run_by};
use std::fs::Files;
use std::sync::Wait;
use std::thread::Threads;
use std::time::Clock;
use std::{env, fs};
use stores::{Amounts, Analysis, Pace, checkpoint, copy_disk, keep, resume, work};

fn main(rt: HostRuntime) -> Result<()> {
    let words: Vec<String> = env::args(&rt)?.collect(rt.alloc())?;
    let words = words.as_slice();
    match word(words, 1)? {
        "work" => print_figures(&rt, &run_workers(&rt, words, Analysis::Copies)?.figures()),
        "dear" => print_figures(&rt, &run_workers(&rt, words, Analysis::Dear)?.figures()),
        "fill" => print_figures(&rt, &run_fill(&rt, words)?.figures()),
        _ => run(&rt, words),
    }
}

/// Fills the values of a text by as many workers as the words ask for.
fn run_fill<R: Threads + Clock + Sync + Files + AllocGlobal>(
    rt: &R,
    words: &[String],
) -> Result<Steps> {
    let text = text_of(rt, words)?;
    let workers = number(word(words, 3)?)?;
    time_fill(rt, text.as_slice(), workers)
}

/// Lets workers work on a text as the words ask for, by the analysis.
fn run_workers<R: Threads + Wait + Clock + Sync + Files + AllocGlobal>(
    rt: &R,
    words: &[String],
    analysis: Analysis,
) -> Result<Amounts> {
    let text = text_of(rt, words)?;
    let pace = pace_of(words)?;
    work(rt, text.as_slice(), analysis, pace)
}

/// The pace that three words say.
fn pace_of(words: &[String]) -> Result<Pace> {
    Ok(Pace {
        workers: number(word(words, 3)?)?,
        keys: number(word(words, 4)?)?,
        ahead: number(word(words, 5)?)?,
    })
}

/// Does what the words ask for, and prints what it came to.
fn run(rt: &HostRuntime, words: &[String]) -> Result<()> {
    match word(words, 1)? {
        "run" => print_figures(rt, &run_analysis(rt, words)?.figures()),
        "scatter" => print_figures(rt, &scatter(rt.alloc(), sizes_of(words)?)?.figures()),
        "append" => print_figures(rt, &append(rt.alloc(), sizes_of(words)?)?.figures()),
        "reopen" => print_figures(rt, &reopen(rt.alloc(), sizes_of(words)?)?.figures()),
        "copy" => print_bytes(rt, copy(rt.alloc(), sizes_of(words)?)?),
        "spell" => print_bytes(rt, spell(rt.alloc(), batches_of(words)?)?),
        "read" => print_bytes(rt, read(rt.alloc(), batches_of(words)?)?),
        "recopy" => print_bytes(rt, copy_each(rt.alloc(), batches_of(words)?)?),
        phase => run_phase(rt, phase, text_of(rt, words)?.as_slice()),
    }
}

/// Runs a text as the words ask for.
fn run_analysis(rt: &HostRuntime, words: &[String]) -> Result<RunCounts> {
    run_by(rt.alloc(), word(words, 3)?, text_of(rt, words)?.as_slice())
}

/// Does the work on a text up to the phase of that name, and prints what it came to.
fn run_phase(rt: &HostRuntime, phase: &str, text: &[u8]) -> Result<()> {
    match phase {
        "parse" => print_procedures(rt, count_procedures(rt.alloc(), text)?),
        "graph" => print_graph(rt, &graph_of(rt.alloc(), text)?),
        "tabulate" => print_figures(rt, &tabulate(rt.alloc(), text)?.figures()),
        "solve" => print_figures(rt, &solve(rt.alloc(), text)?.figures()),
        "print" => print_bytes(rt, measure_dump(rt.alloc(), text)?),
        "keep" => print_figures(rt, &keep(rt.alloc(), text)?.figures()),
        "resume" => print_figures(rt, &resume(rt.alloc(), text)?.figures()),
        "checkpoint" => print_figures(rt, &checkpoint(rt.alloc(), text)?.figures()),
        "bytes" => print_bytes(rt, copy_disk(rt.alloc(), text)?),
        _ => bail!(
            "parse, graph, tabulate, solve, print, fill, keep, resume, checkpoint, bytes, work, dear, run, scatter, append, reopen, copy, spell, read or recopy is wanted"
        ),
    }
}

/// The word at an index.
fn word(words: &[String], index: usize) -> Result<&str> {
    let word = words.get(index).context("a word is wanting")?;
    Ok(word.as_str())
}

/// The text of the file that a word names.
fn text_of<R: Files + AllocGlobal>(rt: &R, words: &[String]) -> Result<Vec<u8>> {
    fs::read(rt, word(words, 2)?).context("the text cannot be read")
}

/// The length and the count that two words say.
fn sizes_of(words: &[String]) -> Result<Sizes> {
    Ok(Sizes {
        length: number(word(words, 2)?)?,
        count: number(word(words, 3)?)?,
    })
}

/// The batches that three words say.
fn batches_of(words: &[String]) -> Result<Batches> {
    let version = match word(words, 2)? {
        "1" => Version::One,
        "2" => Version::Two,
        _ => bail!("a version is wanted, 1 or 2"),
    };
    Ok(Batches {
        version,
        members: number(word(words, 3)?)?,
        count: number(word(words, 4)?)?,
    })
}

/// The number that a word says.
fn number(word: &str) -> Result<usize> {
    word.parse().context("a number is wanted")
}

/// Prints how many procedures there are.
fn print_procedures(rt: &HostRuntime, count: usize) -> Result<()> {
    print_figures(rt, &[("procedures", count as u64)])
}

/// Prints how large a graph is.
fn print_graph(rt: &HostRuntime, graph: &Graph) -> Result<()> {
    let nodes = graph.node_count() as u64;
    let facts = graph.fact_count() as u64;
    print_figures(rt, &[("nodes", nodes), ("facts", facts)])
}

/// Prints how many bytes there are.
fn print_bytes(rt: &HostRuntime, bytes: usize) -> Result<()> {
    print_figures(rt, &[("bytes", bytes as u64)])
}
