//! The tables of the standard (ANSI E1.20-2010, appendices A to C, and ANSI E1.37-1), each a list of numbers with their words: the
//! standard's own names without their prefixes. Some of a manufacturer's own numbers have no name there. A fixture's file can have names of
//! those that are in rdm_standard_names, so they are there.

pub mod dimmers;
pub mod parameters;
pub mod replies;
pub mod settings;
pub mod statuses;
