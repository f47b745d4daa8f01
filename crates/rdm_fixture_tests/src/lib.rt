//! The tests of rdm_fixture, which see its public calls alone.
#![tactic(auto)]

#[cfg(test)]
mod tests;
