//! Tests of reports as listings. There is nothing else here.
#![tactic(auto)]

#[cfg(test)]
mod listings;
