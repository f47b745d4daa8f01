//! The tests of rdm_collector and rdm_console, in a crate of their own: a crate with tests is proved twice.
#![tactic(auto)]

#[cfg(test)]
mod collector;
#[cfg(test)]
mod conversations;
#[cfg(test)]
mod mailboxes;
#[cfg(test)]
mod tests;
