//! The tests, a file for each subject, and what several of them use.
mod faults;
mod graph;
mod graphs;
mod instances;
mod refusals;
mod sites;
mod text;
mod texts;
