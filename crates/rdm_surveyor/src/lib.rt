//! What a survey of an RDM line tells of a fixture is asked of it, through a port.
//!
//! `survey` asks by GETs alone, so that it changes no setting of a fixture. What it fetches by STATUS_MESSAGES the fixture doesn't give
//! again (E1.20 section 10.3.2), so each such reply is handed on, as a `Report`; `fetch_statuses` does this alone.
//!
//! `specs/Asking.antt` says what a question is and its reply, `specs/Tells.antt` what a reply tells, `specs/Statuses.antt` what status
//! messages come to, and `specs/Surveys.antt` what a survey tells by them.
#![tactic(auto)]

mod asking;
mod fault;
mod reports;
mod statuses;
mod subs;
mod surveying;

pub use fault::SurveyFault;
pub use reports::{Report, Statuses, fetch_last_status, fetch_statuses};
pub use surveying::{Surveyed, survey};
