//! Program texts: the parser, the printer, and the programs between them.
//!
//! [`parse`] reads a whole text and answers its [`Program`], or the first fault that stands in it
//! with its line. [`print()`] appends the one text of a program.
#![tactic(auto)]

mod checker;
mod copy;
mod cut;
mod flaw;
mod laws;
mod line;
mod name;
mod names;
mod parser;
mod places;
mod printer;
mod program;
mod reader;
mod scope;
mod tables;
mod token;

pub use laws::{
    one_fault, one_first_fault, parsed_have_no_fault, parsing_and_printing_undo_each_other,
    spell_one_program, spelled_have_no_fault,
};
pub use name::Name;
pub use parser::{MAX_TEXT, parse};
pub use places::Places;
pub use printer::print;
pub use program::{Expression, Procedure, Program, Statement};
