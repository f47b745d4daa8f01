//! Laws of lines with collectors. Each is the contract of a call that does nothing.

ghost use Rattle.rdm_line_ends.specs.LineLaws.{LineLawsHold};

use rdm_params::two_commands_fetch;

/// Both recording laws hold of each device of a line and its collector, in every run. What the collector recorded, adjacent equal
/// messages joined, is a prefix of what its own device dispensed, at most one message shorter, and the same if the last poll is
/// answered; each message that the device gave is in it, but for the last one if the last poll isn't. It is so whatever the other
/// devices and their collectors do, with each rule of collisions, whichever requests and replies are lost or altered, and
/// however many in a row (E1.20 section 10.3.1).
pub fn line_recording_laws_hold()
    ensures { LineLawsHold }
{
    two_commands_fetch();
}
