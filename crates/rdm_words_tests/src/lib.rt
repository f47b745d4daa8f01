//! The tests of rdm_words, rdm_entry, rdm_capture, rdm_chart, rdm_expect and rdm_markup, in a crate of their own: a crate with tests is proved twice.
#![tactic(auto)]

#[cfg(test)]
mod capture;
#[cfg(test)]
mod chart;
#[cfg(test)]
mod entry;
#[cfg(test)]
mod entry_words;
#[cfg(test)]
mod expect;
#[cfg(test)]
mod markup;
#[cfg(test)]
mod tests;
