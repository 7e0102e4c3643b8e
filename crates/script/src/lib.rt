//! A reader of scripts: the words of a line, the calls of a text, words as cells of columns, and
//! the forms of the program's own words.
#![tactic(auto)]

pub mod arguments;
pub mod cell;
pub mod columns;
pub mod command;
pub mod reader;
pub mod script;
pub mod words;
