//! The tests, a file for each subject, and what several of them use.
mod files;
mod memory;
mod memory_file;
