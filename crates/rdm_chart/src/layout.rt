//! Where things stand. All lengths are in px, and y grows downwards.

/// A length in px.
pub(crate) type Px = u64;

/// Between the border of the page and what it shows.
pub(crate) const MARGIN: Px = 24;
/// The base line of the title.
pub(crate) const TITLE_Y: Px = 36;
/// The base line of what is said below it.
pub(crate) const SUBTITLE_Y: Px = 56;
/// The upper edge of the first row of heads.
pub(crate) const TOP: Px = 74;

/// The lifeline of the controller: what it recorded stands on its left.
pub(crate) const CONTROLLER_X: Px = 150;
/// The lifeline of the responder.
pub(crate) const RESPONDER_X: Px = 690;
/// The first lifeline on the right of the responder.
pub(crate) const WORK_X: Px = 960;
/// From that lifeline to the next.
pub(crate) const WORK_STEP: Px = 150;

/// The head of a lifeline.
pub(crate) const HEAD_WIDTH: Px = 120;

pub(crate) const HEAD_HEIGHT: Px = 30;
/// From the upper edge of a head to the base line of its name.
pub(crate) const HEAD_BASE: Px = 20;
/// After this many transactions the heads are repeated, so that some are in sight.
pub(crate) const HEADS_EVERY: u64 = 20;

/// The space above what belongs together.
pub(crate) const GAP: Px = 8;
/// From the base line of a text to that of the next.
pub(crate) const LINE_HEIGHT: Px = 16;
/// From the upper edge of a text to its first base line.
pub(crate) const BASE: Px = 12;
/// Between the last line of a label and its arrow.
pub(crate) const ABOVE_ARROW: Px = 3;
/// The same if a cross is at its end.
pub(crate) const ABOVE_CROSS: Px = 8;
/// Between an arrow and what comes below.
pub(crate) const BELOW_ARROW: Px = 6;
/// Between a lifeline and a text beside it.
pub(crate) const PADDING: Px = 14;

/// The tip of an arrow.
pub(crate) const TIP_LENGTH: Px = 10;

/// The tag of a recorded message.
pub(crate) const TAG_WIDTH: Px = 86;

pub(crate) const TAG_HEIGHT: Px = 20;
