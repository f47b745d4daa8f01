//! What an RDM device keeps (ANSI E1.20-2010, section 10), and the parameters that a profile adds (section 10.4.2 and E1.37-1): what fits
//! them, what they reply, and how a command changes them.
#![tactic(auto)]

pub mod added;
mod place;
mod state;

pub use place::Place;
pub use state::{CommonValues, Kept, Measured, RootValues};
