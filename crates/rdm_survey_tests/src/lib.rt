//! The tests of the crates of surveys, in a crate of their own: a crate with tests is proved twice, and each crate reads all below it
//! first. A library has a module of its name.
#![tactic(auto)]

#[cfg(test)]
mod addresses;
#[cfg(test)]
mod compare;
#[cfg(test)]
mod health;
#[cfg(test)]
mod settings;
#[cfg(test)]
mod survey;
#[cfg(test)]
mod survey_page;
#[cfg(test)]
mod surveyor;
