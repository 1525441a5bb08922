//! The tests, a file for each subject, and what several of them use.
mod disk;
mod harms;
mod journal;
mod stores;
