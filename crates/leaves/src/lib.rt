//! Tests of what no clause says about the crates that use few others, a file for each. They are here and not in the
//! crates, since a crate with tests is proved twice.
#![tactic(auto)]

#[cfg(test)]
mod aging_tests;
#[cfg(test)]
mod block_store_tests;
#[cfg(test)]
mod eviction_tests;
#[cfg(test)]
mod files_tests;
#[cfg(test)]
mod lru_gen_tests;
#[cfg(test)]
mod marks_tests;
#[cfg(test)]
mod rings_tests;
#[cfg(test)]
mod scenario_tests;
#[cfg(test)]
mod trace_tests;
#[cfg(test)]
mod walks_tests;
