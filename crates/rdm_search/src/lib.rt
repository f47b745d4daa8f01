//! A controller's search for the fixtures of its line (ANSI E1.20-2010, sections 7.5 and 7.6).
//!
//! A `Search` says which frame to send next and takes what was heard. It knows no port: `discover` runs one over
//! whatever sends frames and hears answers.
#![tactic(auto)]

mod driving;
mod error;
mod found;
mod hearing;
mod port;
mod range;
mod request;
mod retries;
mod search;
mod stage;

pub use driving::{discover, discover_more, run};
pub use error::SearchError;
pub use found::Found;
pub use port::Port;
pub use request::Request;
pub use retries::is_answered;
pub use search::Search;
