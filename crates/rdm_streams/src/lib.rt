//! Bytes written whole, to a writer that takes as many at once as it wants; bytes read as they come; and bytes that were read
//! taken apart into lines. There is one rule for a call that was interrupted: it is made again.
#![tactic(auto)]

mod laws;
mod lines;
mod reading;
mod writing;

pub use laws::{read_faults_are_equal_by_value, write_faults_are_equal_by_value};
pub use lines::{line_end, without_return};
pub use reading::{ReadFault, read_some};
pub use writing::{WriteFault, write_all};
