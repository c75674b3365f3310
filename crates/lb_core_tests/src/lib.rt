//! Tests of the libraries below the pool of workers, as their callers meet them: of sources, traces
//! and lanes. There is nothing else here. The loop over tables of text, and what else tests share, is
//! that of `lb_test_support`.
#![tactic(auto)]

#[cfg(test)]
mod batches;
#[cfg(test)]
mod check_causes;
#[cfg(test)]
mod cycles;
#[cfg(test)]
mod elaboration;
#[cfg(test)]
mod flat_causes;
#[cfg(test)]
mod lane_words;
#[cfg(test)]
mod lanes;
#[cfg(test)]
mod machine;
#[cfg(test)]
mod offsets;
#[cfg(test)]
mod readings;
#[cfg(test)]
mod source_places;
#[cfg(test)]
mod source_texts;
#[cfg(test)]
mod sources;
#[cfg(test)]
mod static_causes;
#[cfg(test)]
mod tables;
#[cfg(test)]
mod traces;
#[cfg(test)]
mod words;
