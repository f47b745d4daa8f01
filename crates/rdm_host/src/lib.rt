//! What felosumay's subcommands stand on: the machine, where text comes from and where it goes, the fixtures that are asked for, and
//! what is told of a fault.
#![tactic(auto)]

pub mod fault;
mod fault_text;
pub mod fixture;
pub mod host;
pub mod line_fault;
pub mod name;
pub mod source;
pub mod watched;
