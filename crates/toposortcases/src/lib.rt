// Small graphs, and what a search answers of them. The crate has tests and nothing else, so that the crate that it tests is
// not proved twice.
#![tactic(auto)]

#[cfg(test)]
mod table;
