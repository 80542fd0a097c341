// Runs, and what judging each of them answers by every rule at every scope. The crate has tests and nothing else, so that the
// crates that it tests are not proved twice. The answers in the tables do not come from the checker, but from a brute-force
// reading of the definitions that was written apart from it, which was held against every order of each run. The steps of a
// violation are left open by the tables where the judge is free; the tests look at each of them in plain code.
#![tactic(auto)]

#[cfg(test)]
mod buffers;
#[cfg(test)]
mod evidence;
#[cfg(test)]
mod facts;
#[cfg(test)]
mod judging;
#[cfg(test)]
mod known;
#[cfg(test)]
mod logs;
#[cfg(test)]
mod longest;
#[cfg(test)]
mod numbers;
#[cfg(test)]
mod outcome;
#[cfg(test)]
mod refusals;
#[cfg(test)]
mod rows;
#[cfg(test)]
mod sample;
#[cfg(test)]
mod words;
