//! Which profiles are refused.

use super::fitting::is_each_made;
use super::*;

/// How many sub-devices there are, what is altered in the demonstration device, if something is, and why the profile is refused, if it is.
const PROFILES: &str = "<subs> | <altered> | <told>
0 | root start 0 | bad profile
0 | root start 513 | bad profile
0 | cells start 0 | bad profile
0 | cells start 513 | bad profile
0 | root bare | bad profile
0 | cells bare | bad profile
0 | cells personality 513 | bad profile
0 | no languages | bad profile
// The second personality uses 5 slots.
0 | slots 4 | bad profile
// A third self test, and a third status text.
0 | test 0 | bad profile
0 | test 255 | bad profile
0 | test 1 | bad profile
0 | test 2 | bad profile
0 | status 8001 | bad profile
0 | presets 65535 | bad profile
0 | presets 0 | made
0 | presets 4096 | made
0 | presets 65534 | made
0 | // | made
1 | // | made
2 | // | made
511 | // | made
512 | // | made
513 | // | too many sub-devices
// Sub-devices are counted first.
513 | presets 65535 | too many sub-devices";

const ALTERED: &str = "
subs <subs>
<altered>
";

#[test]
fn profiles_that_break_a_rule_are_refused(rt: HostRuntime) {
    is_each_made(&rt, rt.alloc(), PROFILES, ALTERED);
}
