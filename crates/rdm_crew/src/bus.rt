//! What the bus thread does while there are steps: it plays them, hands jobs out, and draws reports and changes.

pub(crate) mod crew;
pub(crate) mod desk;
pub(crate) mod stop;
