//! What the crates of tests share: texts and their comparison, the loop over tables, cases, and the
//! tables that more than one crate goes over. There is no test here.
//!
//! Most tests go over a table of text. A row has a question and the wanted answer, and is split when
//! the test runs, so that a further case costs no proof. The wanted answers were worked out by hand.
//!
//! Answers are written into `texts::Said`, which keeps whether memory ran out. So no call that
//! writes has a `?` behind it, whose proof would cost twice that of the call.
#![tactic(auto)]

pub mod cases;
pub mod forms;
pub mod random;
pub mod rows;
pub mod runs;
pub mod texts;
