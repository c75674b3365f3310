//! The words of the command line: what they ask for, and what is wrong with them.
#![tactic(auto)]

mod asking;
mod error;
mod modes;
mod request;
mod terms;
mod values_request;
mod wrong_words;

pub use asking::{asks_for_all, asks_to_explain};
pub use error::WordsError;
pub use request::{Aim, Request, Task, read_words};
pub use terms::{Format, Terms};
pub use values_request::Values;
pub use wrong_words::explain_words;
