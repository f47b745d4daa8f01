//! Changes at the device's own menu, worked out by hand: which are refused, and how the controller hears of the others.

use super::acts::Run;

/// The device has two personalities. A third is no change, and nothing is told.
const OUT_OF_RANGE: &str = "
personality 3 = refused
get 00E0 = 00010000002000E00004C7 00000000002100E002010204CE reply
collect = 01010000002000200102040C 0100000000210030000418 message
";

/// There is one place, which a job has, and then its message. Room is tested before the range.
const NO_ROOM: &str = "
set 0403 01 = 000100000030040301010401 00010000003104030200320435 reply
start 1 = no room
ends 0 = arrived
start 1 = no room
collect = 01010000002000200102040C 01000000003104030003FF message
start 1 = 21 00F0 0000 0001
personality 3 = no room
collect = 02010000002000200102040D 02000000002100F002000104DE message
";

/// The longest label, and the empty one.
const LABELS: &str = "
label 4141414141414141414141414141414141414141414141414141414141414141 = \
    21 0082 0000 4141414141414141414141414141414141414141414141414141414141414141
label = 21 0082 0000
collect = 00010000002000200102040B \
    00000100002100822041414141414141414141414141414141414141414141414141414141414141410CCA message
collect = 01010000002000200102040C 010000000021008200046A message
";

/// A change comes between a lost reply and its repeat: each message is recorded once, in order.
const BETWEEN_LOSS_AND_REPEAT: &str = "
start 101 = 21 00F0 0000 0065
collect, lost reply = 00010000002000200102040B 00000000002100F00200650540 nothing
personality 2 = 21 00E0 0000 0202
collect = 01010000002000200101040B 01000100002100F00200650542 message
collect = 02010000002000200102040D 02000000002100E002020204D1 message
";

/// Where there is room for one message, the second change waits until the first was collected.
const ONE_BY_ONE: &str = "
label 50616E656C = 21 0082 0000 50616E656C
start 101 = no room
collect = 00010000002000200102040B 00000000002100820550616E656C0663 message
start 101 = 21 00F0 0000 0065
collect = 01010000002000200102040C 01000000002100F00200650541 message
";

pub(super) const RUNS: &[Run] = &[
    (8, OUT_OF_RANGE, 1),
    (1, NO_ROOM, 2),
    (8, LABELS, 2),
    (8, BETWEEN_LOSS_AND_REPEAT, 2),
    (1, ONE_BY_ONE, 2),
];
