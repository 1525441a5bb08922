//! The tests, a file for each subject, and what several of them use.
mod desks;
mod orders;
mod row;
mod watch;
