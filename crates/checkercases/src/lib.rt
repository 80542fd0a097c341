// Runs checked under each model, and what is printed of that: the samples of `samples/`, runs that were drawn at random, the
// models by number, and the views. The crate has tests and nothing else, so that the crates that it tests are not proved twice.
// What the tables expect does not come from the checker, but from a brute force over all orders that was written apart from it.
#![tactic(auto)]

#[cfg(test)]
mod answers;
#[cfg(test)]
mod buffers;
#[cfg(test)]
mod drawn;
#[cfg(test)]
mod known;
#[cfg(test)]
mod longest;
#[cfg(test)]
mod numbers;
#[cfg(test)]
mod parts;
#[cfg(test)]
mod reported;
#[cfg(test)]
mod viewed;
#[cfg(test)]
mod words;
