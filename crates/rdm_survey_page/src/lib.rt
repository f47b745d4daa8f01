//! A survey of an RDM line as one file of HTML, for the paperwork: it is read on a screen, and printed for the rig.
//!
//! `put_page` writes it. The page takes nothing from elsewhere and has no script.
#![tactic(auto)]

mod clash_list;
mod escaping;
mod fixed;
mod laws;
mod page;
mod table;

pub use clash_list::put_clash;
pub use laws::{
    escaped_text_is_no_markup, escaped_text_is_read_back, no_text_adds_a_tag,
    text_on_a_page_is_read_back,
};
pub use page::put_page;
