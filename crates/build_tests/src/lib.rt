//! Tests of whole builds and replays, and of the calls that these stand on. They are a crate of their own, so that what they
//! test is proved once for them.
#![tactic(auto)]

#[cfg(test)]
mod builds;
#[cfg(test)]
mod cache_tests;
#[cfg(test)]
mod kept_tests;
#[cfg(test)]
mod library_tests;
#[cfg(test)]
mod load_tests;
#[cfg(test)]
mod piece_tests;
#[cfg(test)]
mod replay_tests;
#[cfg(test)]
mod run_tests;
