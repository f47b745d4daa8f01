//! The tests of rdm_frame and rdm_receiver, in a crate of their own: a crate with tests is proved twice.
#![tactic(auto)]

#[cfg(test)]
mod receiver;
#[cfg(test)]
mod tests;
