//! Frames and UIDs that were worked out by hand, one a line: what is asked, and behind ` = ` what is told.

/// All rows.
pub(super) const ALL: &[&str] = &[
    FRAMES, REFUSALS, SUMS, BOUNDS, DIFFERENT, UIDS, NO_UIDS, DISCOVERY,
];

/// Frames, and what they say.
const FRAMES: &str = r#"# The controller asks the device whether it identifies itself.
frame CC 01 18 7F F0 00 00 00 01 7F F0 00 00 00 02 00 01 00 00 00 20 10 00 00 03 F7 = to 7FF0:00000001 from 7FF0:00000002, transaction 0, port 1, count 0, sub 0, class 20, pid 1000, data []
# The device answers that it doesn't.
frame CC 01 19 7F F0 00 00 00 02 7F F0 00 00 00 01 00 00 00 00 00 21 10 00 01 00 03 F9 = to 7FF0:00000002 from 7FF0:00000001, transaction 0, port 0, count 0, sub 0, class 21, pid 1000, data [0]
# The device refuses a SET whose data are out of range.
frame CC 01 1A 7F F0 00 00 00 02 7F F0 00 00 00 01 00 02 00 00 00 31 10 00 02 00 06 04 13 = to 7FF0:00000002 from 7FF0:00000001, transaction 0, port 2, count 0, sub 0, class 31, pid 1000, data [0, 6]
# The device refuses a GET with data.
frame CC 01 1A 7F F0 00 00 00 02 7F F0 00 00 00 01 01 02 00 00 00 21 10 00 02 00 01 03 FF = to 7FF0:00000002 from 7FF0:00000001, transaction 1, port 2, count 0, sub 0, class 21, pid 1000, data [0, 1]
# The controller tells all devices to identify themselves.
frame CC 01 19 FF FF FF FF FF FF 7F F0 00 00 00 02 00 01 00 00 00 30 10 00 01 01 08 94 = to FFFF:FFFFFFFF from 7FF0:00000002, transaction 0, port 1, count 0, sub 0, class 30, pid 1000, data [1]"#;

/// The first request, altered or cut: bytes that are no frame, and the first of six tests that they fail.
const REFUSALS: &str = r#"frame = Short: fewer bytes than the shortest frame
frame CC 01 18 7F F0 00 00 00 01 7F F0 00 00 00 02 00 01 00 00 00 20 10 00 00 03 = Short: fewer bytes than the shortest frame
frame 00 01 18 7F F0 00 00 00 01 7F F0 00 00 00 02 00 01 00 00 00 20 10 00 00 03 F7 = Start: wrong START code
frame CC 02 18 7F F0 00 00 00 01 7F F0 00 00 00 02 00 01 00 00 00 20 10 00 00 03 F7 = SubStart: wrong sub-START code
frame CC 01 19 7F F0 00 00 00 01 7F F0 00 00 00 02 00 01 00 00 00 20 10 00 00 03 F7 = Length: the message length doesn't match the number of bytes
frame CC 01 18 7F F0 00 00 00 01 7F F0 00 00 00 02 00 01 00 00 00 20 10 00 00 03 F7 00 = Length: the message length doesn't match the number of bytes
frame CC 01 18 7F F0 00 00 00 01 7F F0 00 00 00 02 00 01 00 00 00 20 10 00 01 03 F7 = Pdl: the parameter data length doesn't match the message length
frame CC 01 18 7F F0 00 00 00 01 7F F0 00 00 00 02 00 01 00 00 00 20 10 00 00 03 F6 = Checksum: wrong checksum"#;

/// Slots, and the sum of them.
const SUMS: &str = r#"sum = 0000
sum CC = 00CC
sum CC 01 18 7F F0 00 00 = 0254
sum CC 01 18 7F F0 00 00 00 = 0254
sum CC 01 18 7F F0 00 00 00 01 7F F0 00 00 00 02 00 01 00 00 00 20 10 00 00 = 03F7
sum CC 01 18 7F F0 00 00 00 01 7F F0 00 00 00 02 00 01 00 00 00 20 10 00 00 03 = 03FA
sum FF*257 = FFFF"#;

/// Each kind of bytes has its bound. `41*231` is 231 times the byte 41.
const BOUNDS: &str = r#"Body 41*231 = taken
Body 41*232 = too long
Wire 41*257 = taken
Wire 41*258 = too long
Load 41*255 = taken
Load 41*256 = too long
Text 41*32 = taken
Text 41*33 = too long"#;

/// Texts that differ from the label "Fixture", and itself.
const DIFFERENT: &str = r#"# "Fixture" and ""
alike = different
# "Fixture" and "Fixtur"
alike 46 69 78 74 75 72 = different
# "Fixture" and "Fixturf"
alike 46 69 78 74 75 72 66 = different
# "Fixture" and "Fixture "
alike 46 69 78 74 75 72 65 20 = different
# "Fixture" itself
alike 46 69 78 74 75 72 65 = the same"#;

/// UIDs in the order of their numbers, then others.
pub(super) const UIDS: &str =
    r#"uid 0000:FFFFFFFF = 0000:FFFFFFFF, number 0000FFFFFFFF, broadcast: true, all of its maker: true, all: false, addresses 7FF0:00000001: false
uid 0001:00000000 = 0001:00000000, number 000100000000, broadcast: false, all of its maker: false, all: false, addresses 7FF0:00000001: false
uid 7FF0:00000001 = 7FF0:00000001, number 7FF000000001, broadcast: false, all of its maker: false, all: false, addresses 7FF0:00000001: true
uid 7FF0:00000002 = 7FF0:00000002, number 7FF000000002, broadcast: false, all of its maker: false, all: false, addresses 7FF0:00000001: false
uid 7FF0:FFFFFFFF = 7FF0:FFFFFFFF, number 7FF0FFFFFFFF, broadcast: true, all of its maker: true, all: false, addresses 7FF0:00000001: true
uid FFFF:00000001 = FFFF:00000001, number FFFF00000001, broadcast: false, all of its maker: false, all: false, addresses 7FF0:00000001: false
uid FFFF:FFFFFFFF = FFFF:FFFFFFFF, number FFFFFFFFFFFF, broadcast: true, all of its maker: true, all: true, addresses 7FF0:00000001: true
uid 7FF1:00000001 = 7FF1:00000001, number 7FF100000001, broadcast: false, all of its maker: false, all: false, addresses 7FF0:00000001: false
uid 7FF1:FFFFFFFF = 7FF1:FFFFFFFF, number 7FF1FFFFFFFF, broadcast: true, all of its maker: true, all: false, addresses 7FF0:00000001: false
uid 09AF:0123ABCD = 09AF:0123ABCD, number 09AF0123ABCD, broadcast: false, all of its maker: false, all: false, addresses 7FF0:00000001: false
uid 09af:0123aBcD = 09AF:0123ABCD, number 09AF0123ABCD, broadcast: false, all of its maker: false, all: false, addresses 7FF0:00000001: false"#;

/// Texts of no UID.
const NO_UIDS: &str =
    r#"uid = UidError: a UID is four hexadecimal digits, a colon and eight hexadecimal digits
uid 7FF0:0000001 = UidError: a UID is four hexadecimal digits, a colon and eight hexadecimal digits
uid 7FF0:000000001 = UidError: a UID is four hexadecimal digits, a colon and eight hexadecimal digits
uid 7FF0-00000001 = UidError: a UID is four hexadecimal digits, a colon and eight hexadecimal digits
uid 7FG0:00000001 = UidError: a UID is four hexadecimal digits, a colon and eight hexadecimal digits
uid +FF0:00000001 = UidError: a UID is four hexadecimal digits, a colon and eight hexadecimal digits"#;

/// The answer to DISC_UNIQUE_BRANCH of a UID, and the UID of such an answer, which may have lost up to seven bytes at its front.
const DISCOVERY: &str = r#"reply 7FF0:00000001 = FEFEFEFEFEFEFEAAFF7FFAF5AA55AA55AA55AB55AF57EA7F
branch FE FE FE FE FE FE FE AA FF 7F FA F5 AA 55 AA 55 AA 55 AB 55 AF 57 EA 7F = 7FF0:00000001
branch FE FE FE FE FE FE AA FF 7F FA F5 AA 55 AA 55 AA 55 AB 55 AF 57 EA 7F = 7FF0:00000001
branch FE FE FE FE FE AA FF 7F FA F5 AA 55 AA 55 AA 55 AB 55 AF 57 EA 7F = 7FF0:00000001
branch FE FE FE FE AA FF 7F FA F5 AA 55 AA 55 AA 55 AB 55 AF 57 EA 7F = 7FF0:00000001
branch FE FE FE AA FF 7F FA F5 AA 55 AA 55 AA 55 AB 55 AF 57 EA 7F = 7FF0:00000001
branch FE FE AA FF 7F FA F5 AA 55 AA 55 AA 55 AB 55 AF 57 EA 7F = 7FF0:00000001
branch FE AA FF 7F FA F5 AA 55 AA 55 AA 55 AB 55 AF 57 EA 7F = 7FF0:00000001
branch AA FF 7F FA F5 AA 55 AA 55 AA 55 AB 55 AF 57 EA 7F = 7FF0:00000001
# without its separator, and without its last byte
branch FF 7F FA F5 AA 55 AA 55 AA 55 AB 55 AF 57 EA 7F = none
branch FE FE FE FE FE FE FE AA FF 7F FA F5 AA 55 AA 55 AA 55 AB 55 AF 57 EA = none
reply 1234:56789ABC = FEFEFEFEFEFEFEAABA57BE75FE57FA7DBADFBEFDAA5DEE75
branch FE FE FE FE FE FE FE AA BA 57 BE 75 FE 57 FA 7D BA DF BE FD AA 5D EE 75 = 1234:56789ABC
branch FE FE FE FE FE FE AA BA 57 BE 75 FE 57 FA 7D BA DF BE FD AA 5D EE 75 = 1234:56789ABC
branch FE FE FE FE FE AA BA 57 BE 75 FE 57 FA 7D BA DF BE FD AA 5D EE 75 = 1234:56789ABC
branch FE FE FE FE AA BA 57 BE 75 FE 57 FA 7D BA DF BE FD AA 5D EE 75 = 1234:56789ABC
branch FE FE FE AA BA 57 BE 75 FE 57 FA 7D BA DF BE FD AA 5D EE 75 = 1234:56789ABC
branch FE FE AA BA 57 BE 75 FE 57 FA 7D BA DF BE FD AA 5D EE 75 = 1234:56789ABC
branch FE AA BA 57 BE 75 FE 57 FA 7D BA DF BE FD AA 5D EE 75 = 1234:56789ABC
branch AA BA 57 BE 75 FE 57 FA 7D BA DF BE FD AA 5D EE 75 = 1234:56789ABC
# without its separator, and without its last byte
branch BA 57 BE 75 FE 57 FA 7D BA DF BE FD AA 5D EE 75 = none
branch FE FE FE FE FE FE FE AA BA 57 BE 75 FE 57 FA 7D BA DF BE FD AA 5D EE = none"#;
