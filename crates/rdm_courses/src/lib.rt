//! What a fixture does over time by itself: what a sensor shows, a list of points, each a value at a time, and what is shown between them;
//! and status messages that come at their times.
//!
//! `Course::value_at` says what is shown at a time, and `Course::shown_since` what was shown since a look; `Notice::has_come` says whether
//! a status message has come since then. The definitions are `specs/Courses.antt` and `specs/Notices.antt`.
#![tactic(auto)]

mod course;
mod laws;
mod notice;

pub use course::{Course, MOST_POINTS, MOST_SHOWN, Point, Way};
pub use laws::{
    courses_are_equal_by_value, notices_are_equal_by_value, points_are_equal_by_value,
    ways_are_equal_by_value,
};
pub use notice::Notice;
