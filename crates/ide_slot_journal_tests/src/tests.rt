//! The tests, a file for each subject, and what several of them use.
mod journal;
mod stops;
mod tag;
