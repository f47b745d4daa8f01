//! The tests of rdm_widget and rdm_interface, both ends of a serial line, in a crate of their own: a crate with tests is proved twice.
#![tactic(auto)]

#[cfg(test)]
mod tests;
#[cfg(test)]
mod widget;
