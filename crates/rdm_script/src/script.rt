//! What a script says.

use crate::found::Finds;
use rdm_bus::Want;
use rdm_crew::CrewStep;

/// How the device and the controller of a script are set up.
#[derive(Clone, Copy, Debug, PartialEq, Eq)]
pub struct ScriptSetup {
    /// How many sub-devices the device has.
    pub subs: u16,
    /// For how many results of slow commands the device has room.
    pub queue_size: u16,
    /// Which messages the controller wants.
    pub want: Want,
}

impl ScriptSetup {
    /// The setup of a script that says none.
    pub const PLAIN: ScriptSetup = ScriptSetup {
        subs: 0,
        queue_size: 8,
        want: Want::Advisory,
    };
}

/// A script: a setup, and the steps in order.
#[derive(Debug, Drop)]
pub struct Script {
    /// How the device and the controller are set up.
    pub setup: ScriptSetup,
    /// The steps.
    pub steps: Vec<CrewStep>,
    /// The line of each step, counted from 1.
    pub lines: Vec<usize>,
    /// The line of the setup, counted from 1, if the script says one.
    pub setup_line: Option<usize>,
    /// Whether its trace tells which fixtures are found: if a line says a search.
    pub finds: Finds,
}
