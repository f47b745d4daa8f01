//! The tests of rdm_line, in a crate of their own: a crate with tests is proved twice.
#![tactic(auto)]

#[cfg(test)]
mod discovery;
#[cfg(test)]
mod rig;
#[cfg(test)]
mod tests;
