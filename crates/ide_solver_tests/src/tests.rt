//! The tests, a file for each subject, and what several of them use.
mod example;
mod fills;
mod generated;
mod plain;
mod service;
mod workers;
