// Records, sound and damaged, and what each call answers of them. The crate has tests and nothing else, so that the crates
// that it tests are not proved twice.
#![tactic(auto)]

#[cfg(test)]
mod damage;
#[cfg(test)]
mod faults;
#[cfg(test)]
mod recordings;
#[cfg(test)]
mod replaying;
#[cfg(test)]
mod rows;
#[cfg(test)]
mod session;
#[cfg(test)]
mod table;
#[cfg(test)]
mod words;
#[cfg(test)]
mod worked;
