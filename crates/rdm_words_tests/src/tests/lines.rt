//! Frames with other headers, the lines of a trace, and lines that are neither.

/// A line, and its words.
pub(super) const LINES: &str = "CC011A7FF0000000027FF0000000010001000000210403020019040C
7FF0:00000001 answers 7FF0:00000002: ACK_TIMER 2.5 s, GET response LAMP_STATE (0403), root, transaction 0

CC011A7FF0000000027FF000000001000000000021008202417F052D
7FF0:00000001 answers 7FF0:00000002: ACK, GET response DEVICE_LABEL (0082), root, transaction 0
  device label \"A\\x7F\"

cc\t01 18\t7f\tf0 00 00 00 01\t7f f0 00 00 00 02 00 01 00 00 00 20 10 00 00 03\tf7
7FF0:00000002 asks 7FF0:00000001: GET IDENTIFY_DEVICE (1000), root, transaction 0

CC011A7FF0000000027FF00000000100010000002104030200320425
7FF0:00000001 answers 7FF0:00000002: ACK_TIMER 5.0 s, GET response LAMP_STATE (0403), root, transaction 0

CC011A7FF0000000027FF000000001FF020100033100F002000605F6
7FF0:00000001 answers 7FF0:00000002: NACK_REASON data out of range (0006), SET response DMX_START_ADDRESS (00F0), sub-device 3, transaction 255, 1 message waits

CC011A7FF0000000027FF0000000010002FF00003100F0028001066D
7FF0:00000001 answers 7FF0:00000002: NACK_REASON 8001, SET response DMX_START_ADDRESS (00F0), root, transaction 0, 255 or more messages wait

CC011A7FF0000000027FF000000001000302000021005002008204C2
7FF0:00000001 answers 7FF0:00000002: ACK_OVERFLOW, GET response SUPPORTED_PARAMETERS (0050), root, transaction 0, 2 messages wait
  supports DEVICE_LABEL (0082)

CC01197FF0000000027FF0000000010002000000210403010003F2
7FF0:00000001 answers 7FF0:00000002: NACK_REASON, GET response LAMP_STATE (0403), root, transaction 0
  data 00

CC01197FF0000000027FF0000000010007000000210403010103F8
7FF0:00000001 answers 7FF0:00000002: response type 07, GET response LAMP_STATE (0403), root, transaction 0
  lamp state on (01)

CC011A7FF0FFFFFFFF7FF000000002000203FFFF3081230201020A9F
7FF0:00000002 asks all devices of 7FF0 (7FF0:FFFFFFFF): SET parameter 8123, all sub-devices, transaction 0, port 2, 3 messages wait
  data 0102

CC01197FF0000000017FF00000000200000000004210000101041B
7FF0:00000002 to 7FF0:00000001: command class 42 IDENTIFY_DEVICE (1000), root, transaction 0, port 0
  data 01

CC0124FFFFFFFFFFFF7FF00000000200010000001000010C000000000000FFFFFFFFFFFF0E74
7FF0:00000002 asks all devices (FFFF:FFFFFFFF): DISCOVERY DISC_UNIQUE_BRANCH (0001), root, transaction 0
  from 0000:00000000 to FFFF:FFFFFFFF

CC01207FF0000000027FF000000001000000000011000208000B7FF0000000010564
7FF0:00000001 answers 7FF0:00000002: ACK, DISCOVERY response DISC_MUTE (0002), root, transaction 0
  control field 000B, managed proxy, sub-device, proxied device, binding UID 7FF0:00000001

CC011A7FF0000000027FF000000001000000000011000302000403E2
7FF0:00000001 answers 7FF0:00000002: ACK, DISCOVERY response DISC_UN_MUTE (0003), root, transaction 0
  control field 0004, boot loader

CC011B7FF0000000027FF000000001000000000011000203000B0003EA
7FF0:00000001 answers 7FF0:00000002: ACK, DISCOVERY response DISC_MUTE (0002), root, transaction 0
  3 data slots where 0002 has 2
  data 000B00

FEFEFEFEFEFEFEAAFF7FFAF5AA55AA55AA55AB55AF57EA7F
7FF0:00000001 answers: DISC_UNIQUE_BRANCH

aa ff 7f fa f5 aa 55 aa 55 aa 55 ab 55 af 57 ea 7f
7FF0:00000001 answers: DISC_UNIQUE_BRANCH

FEFEAAFF7FFAF5AA55AA55AA55AB55AF57EA7E
no frame (fewer bytes than the shortest frame): FEFEAAFF7FFAF5AA55AA55AA55AB55AF57EA7E

CC01187FF0000000017FF00000000200010000002010000003F8
invalid: 7FF0:00000002 asks 7FF0:00000001: GET IDENTIFY_DEVICE (1000), root, transaction 0
  wrong: checksum 03F8, should be 03F7
  no frame (wrong checksum): CC01187FF0000000017FF00000000200010000002010000003F8

cc 01 18 7f f0 00 00 00 01 7f f0 00 00 00 02 00 01 00 00 00 20 10 00 00 03 f7
7FF0:00000002 asks 7FF0:00000001: GET IDENTIFY_DEVICE (1000), root, transaction 0

CC01217FF0000000027FF00000000500000000002102010900002D0014002D0000046E
7FF0:00000005 answers 7FF0:00000002: ACK, GET response SENSOR_VALUE (0201), root, transaction 0
  sensor 0: 45, lowest 20, highest 45, recorded 0

CC011A7FF0000000027FF000000001000000000021040302010203F5
7FF0:00000001 answers 7FF0:00000002: ACK, GET response LAMP_STATE (0403), root, transaction 0
  2 data slots where 0403 has 1
  data 0102

CC011B7FF0000000027FF00000000100000000002100500300820004BF
7FF0:00000001 answers 7FF0:00000002: ACK, GET response SUPPORTED_PARAMETERS (0050), root, transaction 0
  3 data slots where 0050 has a multiple of 2
  supports DEVICE_LABEL (0082)
  data 00

reply none
no reply

job 1 7
job 7 of worker 1 starts

heard message
the controller records the message

heard reply
the controller has its reply

heard ignored
the controller ignores what it hears

heard nothing
the controller hears nothing

found 7FF0:00000001
the controller finds 7FF0:00000001

found 7ff0:ABCDEF01
the controller finds 7FF0:ABCDEF01

found 7FF0:0000001
not read: found 7FF0:0000001

found 7FF0:00000001 twice
not read: found 7FF0:00000001 twice

arrive 0 3 done
job 3 of worker 0 is done

arrive 1 0 reading -5
job 0 of worker 1 has measured -5

arrive 0 0 failed 04 8001 0002 0000
job 0 of worker 0 has failed: error (04), status ID 8001, values 2 and 0

panel start 101
at the fixture's menu: DMX start address 101

panel personality 9 refused
at the fixture's menu: personality 9, refused

panel label -
at the fixture's menu: device label \"\"

message 31 0403 0000 -
recorded: SET response LAMP_STATE (0403), root

message 21 00F0 0000 0065
recorded: GET response DMX_START_ADDRESS (00F0), root
  DMX start address 101

end
end of the trace

send CC01187FF0000000017FF00000000200010000002010000003F7 bad-request 20 16
7FF0:00000002 asks 7FF0:00000001: GET IDENTIFY_DEVICE (1000), root, transaction 0
  fault: slot 20 of the request is raised by 16

send CC01187FF0000000017FF00000000200010000002010000003F7 lost-reply
7FF0:00000002 asks 7FF0:00000001: GET IDENTIFY_DEVICE (1000), root, transaction 0
  fault: the reply is lost

# a comment
# a comment

CC0
not read: CC0

send CC01 lost-reply twice
not read: send CC01 lost-reply twice

arrive 0
not read: arrive 0

panel start 65536
not read: panel start 65536";
