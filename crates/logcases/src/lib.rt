// Logs, good and broken, and what opening each of them answers. The crate has tests and nothing else, so that the
// crates that it tests are not proved twice.
#![tactic(auto)]

#[cfg(test)]
mod asking;
#[cfg(test)]
mod boundaries;
#[cfg(test)]
mod bytes;
#[cfg(test)]
mod outcome;
#[cfg(test)]
mod table;
#[cfg(test)]
mod texts;
