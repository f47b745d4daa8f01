//! Scripts with a setup, polls and faults, and what they print.

use rdm_crew::RunError;
use rdm_script::ProgramError;

/// Scripts beside what they print. The frames were worked out by hand from the packet format.
pub(super) const PLAYED: &[(&str, &str)] = &[
    // The reply to the second poll is altered, so the third asks for the last message again.
    (
        "collect lost-request
collect bad-reply 2 1
collect
",
        "send CC01197FF0000000017FF00000000200010000002000200102040B lost-request
reply none
heard nothing
send CC01197FF0000000017FF00000000201010000002000200101040B bad-reply 2 1
reply CC01187FF0000000027FF0000000010100000000210030000418
heard ignored
send CC01197FF0000000017FF00000000202010000002000200101040C
reply CC01187FF0000000027FF0000000010200000000210030000419
heard message
message 21 0030 0000 -
end
",
    ),
    // Each fault of a command. A SET whose reply is lost is carried out, and one that is altered isn't.
    (
        "get dev 0000 1000 - lost-request
get dev 0000 1000 - lost-reply
get dev 0000 1000 - bad-request 2 1
get dev 0000 1000 - bad-reply 2 1
set dev 0000 1000 01 lost-reply
set dev 0000 1000 00 bad-request 255 255
get dev 0000 1000 -
",
        "send CC01187FF0000000017FF00000000200010000002010000003F7 lost-request
reply none
heard nothing
send CC01187FF0000000017FF00000000201010000002010000003F8 lost-reply
reply CC01197FF0000000027FF0000000010100000000211000010003FA
heard nothing
send CC01187FF0000000017FF00000000202010000002010000003F9 bad-request 2 1
reply none
heard nothing
send CC01187FF0000000017FF00000000203010000002010000003FA bad-reply 2 1
reply CC01197FF0000000027FF0000000010300000000211000010003FC
heard ignored
send CC01197FF0000000017FF00000000204010000003010000101040E lost-reply
reply CC01187FF0000000027FF000000001040000000031100000040B
heard nothing
send CC01197FF0000000017FF00000000205010000003010000100040E bad-request 255 255
reply none
heard nothing
send CC01187FF0000000017FF00000000206010000002010000003FD
reply CC01197FF0000000027FF000000001060000000021100001010400
heard reply
end
",
    ),
    // What is wanted, and the sub-devices.
    (
        "# a device with two cells
setup 2 8 warning
collect
get dev 0002 1000 -
",
        "send CC01197FF0000000017FF00000000200010000002000200103040C
reply CC01187FF0000000027FF0000000010000000000210030000417
heard message
send CC01187FF0000000017FF00000000201010000022010000003FA
reply CC01197FF0000000027FF0000000010100000002211000010003FC
heard reply
message 21 0030 0000 -
end
",
    ),
    // With room for one message a change waits until the one before was fetched.
    (
        "setup 0 1 advisory
panel 100000000
panel 100000000
collect
panel 100000000
collect
",
        "panel label 50616E656C
send CC01197FF0000000017FF00000000200010000002000200102040B
reply CC011D7FF0000000027FF00000000100000000002100820550616E656C0663
heard message
panel start 101
send CC01197FF0000000017FF00000000201010000002000200102040C
reply CC011A7FF0000000027FF00000000101000000002100F00200650541
heard message
message 21 0082 0000 50616E656C
message 21 00F0 0000 0065
end
",
    ),
    // The fixture hasn't got the third change's personality.
    (
        "panel 100000000
panel 100000000
panel 100000000
panel 100000000
",
        "panel label 50616E656C
panel start 101
panel personality 9 refused
panel personality 2
end
",
    ),
    // The greatest setups.
    ("setup 512 1024 error", "end\n"),
    ("setup 0 1024 advisory", "end\n"),
];

/// Scripts that can't be played to their end, and why.
pub(super) const STOPPED: &[(&str, ProgramError)] = &[
    ("setup 0 0 advisory", BAD_SETUP),
    ("setup 0 1025 advisory", BAD_SETUP),
    ("setup 513 8 advisory", BAD_SETUP),
    // A bad setup comes before every step.
    ("setup 513 0 error\nget dev 0000 0020 02\n", BAD_SETUP),
    ("collect\nget dev 0000 0020 02\n", RESERVED),
    ("set dev 0000 0030 - lost-request\n", RESERVED),
];

const BAD_SETUP: ProgramError = ProgramError::Run(RunError::BadSetup);

const RESERVED: ProgramError = ProgramError::Run(RunError::Reserved);
