//! Scripts that are long or odd.

use super::{Ends, FIRST_TRACE};
use rdm_crew::RunError;
use rdm_script::{ProgramError, ScriptError};

/// Bytes that aren't UTF-8, in a comment; a comment of 17 words; and a device whose number is 0.
pub(super) const ODD: &[(&[u8], &str)] = &[
    (b"#\xFF\xFE \xC3\x28\n  #\x80\x00", "end\n"),
    (b"# a b c d e f g h i j k l m n o p", "end\n"),
    (
        b"get 7FF0:00000000 0000 1000 -",
        "send CC01187FF0000000007FF00000000200010000002010000003F6
reply none
heard nothing
end
",
    ),
];

const RESERVED: Ends = Ends::Stops(ProgramError::Run(RunError::Reserved));

const TOO_LONG: Ends = Ends::Stops(ProgramError::Run(RunError::TooLong));

/// Scripts by their beginning, a text that comes next, how many times, and their end; and how they end.
pub(super) const LONG: &[(&str, &str, usize, &str, Ends)] = &[
    // Which refusal comes first, by the number of data bytes.
    ("get dev 0000 1000 ", "a5", 231, "", Ends::Plays),
    ("get dev 0000 1000 ", "a5", 232, "", TOO_LONG),
    ("get dev 0000 1000 ", "a5", 255, "", TOO_LONG),
    (
        "get dev 0000 1000 ",
        "a5",
        256,
        "",
        Ends::Stops(ProgramError::Script(ScriptError::Line(1))),
    ),
    ("get dev 0000 0020 ", "a5", 1, "", RESERVED),
    ("set dev 0000 0030 ", "a5", 232, "", RESERVED),
    (
        "get dev 0000 1000 -\nget dev 0000 1000 -\nget dev 0000 0020 ",
        "a5",
        1,
        "",
        RESERVED,
    ),
    // A comment of many words.
    (
        "#",
        " a",
        20_000,
        "\nget dev 0000 1000 -\n",
        Ends::Prints(FIRST_TRACE),
    ),
    // The longest script, and one of a byte more.
    ("", "#", 65_536, "", Ends::Prints("end\n")),
    (
        "",
        "#",
        65_537,
        "",
        Ends::Stops(ProgramError::Script(ScriptError::TooLong)),
    ),
];

/// How many commands the longest script is made of. Each takes 20 bytes, and its three lines 131.
pub(super) const COMMANDS: usize = 3_200;

/// How long its trace is, with the last line.
pub(super) const TRACE_BYTES: usize = 419_204;
