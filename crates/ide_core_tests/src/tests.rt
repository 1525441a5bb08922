//! The tests, a file for each subject, and what several of them use.
mod bodies;
mod claims;
mod cores;
mod damaged;
mod groups;
mod hands;
mod image;
mod records;
mod tables;
