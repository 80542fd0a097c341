// Runs with orders of their stores, and what confirming each of them answers. The crate has tests and nothing else, so that the
// crates that it tests are not proved twice. The answers in the tables do not come from the checker, but from a brute-force
// reading of the definitions that was written apart from it: Boolean matrices, multiplied and closed.
#![tactic(auto)]

#[cfg(test)]
mod answers;
#[cfg(test)]
mod known;
#[cfg(test)]
mod longest;
#[cfg(test)]
mod refusals;
#[cfg(test)]
mod rows;
#[cfg(test)]
mod sample;
#[cfg(test)]
mod words;
