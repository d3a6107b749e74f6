//! The cases of the documents, as tests: verdicts on tables, characters, runs, cut files, finding and refusals.
#![tactic(auto)]

#[cfg(test)]
mod cutting;
#[cfg(test)]
mod finding;
#[cfg(test)]
mod tools;
#[cfg(test)]
mod verdicts;
#[cfg(test)]
mod walls;
#[cfg(test)]
mod wide;
