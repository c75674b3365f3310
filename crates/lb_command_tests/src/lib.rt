//! Tests of the command line, as users meet it: what is printed, what `--explain` reports for each
//! refusal and verdict, what `--show` shows, and the exit status. There is nothing else here.
//!
//! Most go over a table of text. A row has the words, the standard input, and what the run is to
//! print, and is split when the test runs, so that a further row costs no proof. What is wanted was
//! written by hand, but for random programs.
#![tactic(auto)]

#[cfg(test)]
mod colours;
#[cfg(test)]
mod command_lines;
#[cfg(test)]
mod commands;
#[cfg(test)]
mod controllers;
#[cfg(test)]
mod files;
#[cfg(test)]
mod formats;
#[cfg(test)]
mod helps;
#[cfg(test)]
mod mistakes;
#[cfg(test)]
mod outputs;
#[cfg(test)]
mod program_helps;
#[cfg(test)]
mod programs;
#[cfg(test)]
mod random_values;
#[cfg(test)]
mod reasons;
#[cfg(test)]
mod shown;
#[cfg(test)]
mod tables;
#[cfg(test)]
mod texts;
#[cfg(test)]
mod trace_mistakes;
