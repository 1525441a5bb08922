//! The tests, a file for each subject.
mod current;
mod heads;
mod reading;
