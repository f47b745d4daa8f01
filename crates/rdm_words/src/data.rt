//! The words of parameter data: what their slots are, and how each is said.

pub(crate) mod added;
pub(crate) mod causes;
pub(crate) mod described;
pub(crate) mod form;
pub(crate) mod known;
pub(crate) mod layout;
pub(crate) mod lengths;
pub(crate) mod lists;
pub(crate) mod meanings;
pub(crate) mod own;
pub(crate) mod records;
pub(crate) mod sensors;
pub(crate) mod statuses;
pub(crate) mod times;
pub(crate) mod values;
