//! The trace of a script as a picture: a sequence chart in SVG, with a lifeline for the controller, the responder, the
//! workers that occur and the fixture's own panel.
//!
//! `chart` draws it: an arrow for each request and reply with its words, which `rdm_words` finds; jobs, reports and changes
//! between the responder and the others; and what the controller recorded at its side. The picture follows the reader's
//! preference for light or dark, and has no script in it.
#![tactic(auto)]

mod arrow;
mod cast;
mod charting;
mod drawing;
mod element;
mod heads;
mod laws;
mod layout;
mod lettering;
mod page;
mod recorded;
mod requests;
mod shape;
mod style;
mod svg;
mod title;
mod transaction;
mod wording;
mod work;

pub use charting::{ChartError, MOST_TRANSACTIONS, chart, chart_of};
pub use laws::chart_errors_are_equal_by_value;
pub use title::Named;
