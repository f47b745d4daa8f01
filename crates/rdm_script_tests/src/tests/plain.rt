//! Scripts of commands on which nothing goes wrong, other ways to write one, and lines that no script has.

use super::{FIRST_SCRIPT, FIRST_TRACE};
use rdm_script::{ProgramError, ScriptError};

/// Scripts beside what they print.
pub(super) const PLAYED: &[(&str, &str)] = &[
    ("", "end\n"),
    (FIRST_SCRIPT, FIRST_TRACE),
    // A broadcast is obeyed and not answered.
    (
        "set all 0000 1000 01
get all 0000 1000 -
get dev 0000 1000 -
",
        "send CC0119FFFFFFFFFFFF7FF000000002000100000030100001010894
reply none
heard nothing
send CC0118FFFFFFFFFFFF7FF0000000020101000000201000000882
reply none
heard nothing
send CC01187FF0000000017FF00000000202010000002010000003F9
reply CC01197FF0000000027FF0000000010200000000211000010103FC
heard reply
end
",
    ),
    // Data out of range, and a GET with data.
    (
        "set dev 0000 1000 02
get dev 0000 1000 00
",
        "send CC01197FF0000000017FF00000000200010000003010000102040B
reply CC011A7FF0000000027FF00000000100020000003110000200060413
heard reply
send CC01197FF0000000017FF0000000020101000000201000010003FA
reply CC011A7FF0000000027FF000000001010200000021100002000103FF
heard reply
end
",
    ),
    // The example of the manual.
    (
        "# switch identifying on, at every device: nobody answers a broadcast
set all 0000 1000 01
# ask the device: it is on
get dev 0000 1000 -
# 02 isn't a value of IDENTIFY_DEVICE
set dev 0000 1000 02
",
        "send CC0119FFFFFFFFFFFF7FF000000002000100000030100001010894
reply none
heard nothing
send CC01187FF0000000017FF00000000201010000002010000003F8
reply CC01197FF0000000027FF0000000010100000000211000010103FB
heard reply
send CC01197FF0000000017FF00000000202010000003010000102040D
reply CC011A7FF0000000027FF00000000102020000003110000200060415
heard reply
end
",
    ),
    // A slow command starts a job, whose report arrives before the run ends.
    (
        "set dev 0000 0403 01\n",
        "send CC01197FF0000000017FF000000002000100000030040301010401
reply CC011A7FF0000000027FF00000000100010000003104030200320435
job 0 0
heard reply
arrive 0 0 done
end
",
    ),
    // There are no sub-devices.
    (
        "set dev FFFF 1000 01\n",
        "send CC01197FF0000000017FF000000002000100FFFF30100001010608
reply CC011A7FF0000000027FF000000001000200FFFF3110000200090614
heard reply
end
",
    ),
    // A search, whose answer is no frame, and a mute, after which there is none.
    (
        "disc all 0000 0001 7FF0000000017FF000000001
disc dev 0000 0002 -
disc all 0000 0001 7FF0000000017FF000000001
",
        "send CC0124FFFFFFFFFFFF7FF00000000200010000001000010C7FF0000000017FF0000000010B5A
reply FEFEFEFEFEFEFEAAFF7FFAF5AA55AA55AA55AB55AF57EA7F
heard ignored
send CC01187FF0000000017FF00000000201010000001000020003DA
reply CC011A7FF0000000027FF000000001010000000011000202000003DE
heard reply
send CC0124FFFFFFFFFFFF7FF00000000202010000001000010C7FF0000000017FF0000000010B5C
reply none
heard nothing
end
",
    ),
    // No such parameter.
    (
        "get dev 0000 0015 -\n",
        "send CC01187FF0000000017FF00000000200010000002000150003FC
reply CC011A7FF0000000027FF00000000100020000002100150200000402
heard reply
end
",
    ),
    // The devices of a manufacturer, another device, and a UID in lower case.
    (
        "set maker 0000 1000 01
get 1234:56789abc 0000 1000 -
get 7ff0:00000001 0000 1000 -
",
        "send CC01197FF0FFFFFFFF7FF000000002000100000030100001010805
reply none
heard nothing
send CC0118123456789ABC7FF00000000201010000002010000004F2
reply none
heard nothing
send CC01187FF0000000017FF00000000202010000002010000003F9
reply CC01197FF0000000027FF0000000010200000000211000010103FC
heard reply
end
",
    ),
];

/// Other ways to write the first script.
pub(super) const SPELLINGS: &[(&str, &str)] = &[
    ("get dev 0000 1000 -", FIRST_TRACE),
    ("get dev 0000 1000 -\r\n", FIRST_TRACE),
    ("\tget\tdev \t 0000\t1000 -\t\n", FIRST_TRACE),
    ("   get dev 0000 1000 -   \n", FIRST_TRACE),
    ("get 7FF0:00000001 0000 1000 -\n", FIRST_TRACE),
    (
        "# a comment\n\n \t\n  # another one\n#get dev\nget dev 0000 1000 -\n\n",
        FIRST_TRACE,
    ),
    ("\r\n#\r\nget dev 0000 1000 -\r\n", FIRST_TRACE),
];

/// Lines that no script has.
pub(super) const FAULTY: &str = "foo
get
get dev 0000 1000
get dev 0000 1000 - -
get dev 0000 1000 0
get dev 0000 1000 012
get dev 0000 1000 0g
get dev 0000 1000 --
get dev 0000 1000 -00
get dev 0000 1000 0x00
get dev 000 1000 -
get dev 00000 1000 -
get dev 0000 100 -
get dev 0000 10000 -
get dev 0000 100G -
get dev -000 1000 -
get device 0000 1000 -
get DEV 0000 1000 -
get 7FF0 0000 1000 -
get 7FF0:0000001 0000 1000 -
get 7FF0:000000001 0000 1000 -
get 7FF0-00000001 0000 1000 -
get 7FF00:0000001 0000 1000 -
GET dev 0000 1000 -
get dev 0000 1000 - # no comment
DISC dev 0000 0002 -
disc dev 0000 0002
panel
";

/// Scripts beside their first faulty line.
pub(super) const COUNTED: &[(&str, ProgramError)] = &[
    (
        "get dev 0000 1000 -\rget",
        ProgramError::Script(ScriptError::Line(1)),
    ),
    // An LF is missing, so that nothing takes the carriage return away.
    (
        "get dev 0000 1000 -\r",
        ProgramError::Script(ScriptError::Line(1)),
    ),
    (
        "get dev 0000 1000 -\nfoo\n",
        ProgramError::Script(ScriptError::Line(2)),
    ),
    (
        "# a comment\n\nget dev 0000 1000 -\r\n\t\nfoo\nfoo\n",
        ProgramError::Script(ScriptError::Line(5)),
    ),
    ("\n\n\nfoo", ProgramError::Script(ScriptError::Line(4))),
];
