//! The tests, a file for each subject, and what several of them use.
mod gates;
mod hands;
mod services;
mod stops;
mod workers;
