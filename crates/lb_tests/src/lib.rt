//! Tests of the bench below the command line, as its callers meet it: of runs by workers, reports,
//! refusals and files. There is nothing else here. The loop over tables of text, and what else
//! tests share, is that of `lb_test_support`.
#![tactic(auto)]

#[cfg(test)]
mod answers;
#[cfg(test)]
mod files;
#[cfg(test)]
mod follow;
#[cfg(test)]
mod follow_board;
#[cfg(test)]
mod hostile;
#[cfg(test)]
mod pool;
#[cfg(test)]
mod programs;
#[cfg(test)]
mod random_texts;
#[cfg(test)]
mod refusals;
#[cfg(test)]
mod reports;
#[cfg(test)]
mod rounds;
#[cfg(test)]
mod sections;
#[cfg(test)]
mod streams;
#[cfg(test)]
mod tables;
