//! Changes at the fixture's own menu.

use super::play::Run;

/// Runs that were worked out by hand.
pub(super) const RUNS: &[Run] = &[
    // The second change finds room once the message of the first was collected.
    (
        0,
        1,
        "change label 50616E656C
queued
change start 101
no room
send CC0119 7FF000000001 7FF000000002 00 01 00 0000 20 0020 01 02 040B
reply CC011D 7FF000000002 7FF000000001 00 00 00 0000 21 0082 05 50616E656C 0663
change start 101
queued
send CC0119 7FF000000001 7FF000000002 01 01 00 0000 20 0020 01 02 040C
reply CC011A 7FF000000002 7FF000000001 01 00 00 0000 21 00F0 02 0065 0541
",
    ),
    // A personality that the fixture does not have.
    (
        0,
        8,
        "change personality 3
send CC0118 7FF000000001 7FF000000002 00 01 00 0000 20 00E0 00 04C7
reply CC011A 7FF000000002 7FF000000001 00 00 00 0000 21 00E0 02 0102 04CE
",
    ),
    // An outstanding job has the only place, and then its message has, whatever the range of a change.
    (
        0,
        1,
        "send CC0119 7FF000000001 7FF000000002 00 01 00 0000 30 0403 01 01 0401
reply CC011A 7FF000000002 7FF000000001 00 01 00 0000 31 0403 02 0032 0435
job 0 0
change start 1
no room
change start 513
no room
arrive 0 0 done
change start 1
no room
send CC0119 7FF000000001 7FF000000002 01 01 00 0000 20 0020 01 02 040C
reply CC0118 7FF000000002 7FF000000001 01 00 00 0000 31 0403 00 03FF
change start 513
change start 2
queued
",
    ),
    // A change between a reply that was lost and its repeat.
    (
        0,
        8,
        "change label 50616E656C
queued
send CC0119 7FF000000001 7FF000000002 00 01 00 0000 20 0020 01 02 040B
reply CC011D 7FF000000002 7FF000000001 00 00 00 0000 21 0082 05 50616E656C 0663
change personality 2
queued
send CC0119 7FF000000001 7FF000000002 01 01 00 0000 20 0020 01 01 040B
reply CC011D 7FF000000002 7FF000000001 01 00 01 0000 21 0082 05 50616E656C 0665
send CC0119 7FF000000001 7FF000000002 02 01 00 0000 20 0020 01 02 040D
reply CC011A 7FF000000002 7FF000000001 02 00 00 0000 21 00E0 02 0202 04D1
",
    ),
];
