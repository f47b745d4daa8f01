//! Texts in a document of XML: what stands for each character in the content of an element, and in the value of an attribute.
#![tactic(auto)]

mod escaping;
mod laws;

pub use escaping::{Place, put_escaped};
pub use laws::escaped_text_has_no_tags;
