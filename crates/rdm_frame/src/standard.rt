//! Numbers of the standard (ANSI E1.20-2010) that frames carry and every layer names.

/// The START code, slot 0 of every frame (section 6.2.1).
pub const START_CODE: u8 = 0xCC;

/// The sub-START code, slot 1 of every frame (section 6.2.2).
pub const SUB_START_CODE: u8 = 0x01;

/// The command class of a discovery request (table A-1).
pub const DISCOVERY_COMMAND: u8 = 0x10;

/// The command class of the response to a discovery request (table A-1).
pub const DISCOVERY_COMMAND_RESPONSE: u8 = 0x11;

/// The command class of a GET (table A-1).
pub const GET_COMMAND: u8 = 0x20;

/// The command class of the response to a GET (table A-1).
pub const GET_COMMAND_RESPONSE: u8 = 0x21;

/// The command class of a SET (table A-1).
pub const SET_COMMAND: u8 = 0x30;

/// The command class of the response to a SET (table A-1).
pub const SET_COMMAND_RESPONSE: u8 = 0x31;

/// The response type of a request that was carried out; its data are the reply's (table A-2, section 6.3.1).
pub const ACK: u8 = 0x00;

/// The response type of a request whose result comes later; its data are an estimate of 16 bits, in tenths of a
/// second (table A-2, section 6.3.3).
pub const ACK_TIMER: u8 = 0x01;

/// The response type of a rejected request; its data are a reason of 16 bits (table A-2, section 6.3.4).
pub const NACK_REASON: u8 = 0x02;

/// The response type of a part of data that don't fit one response (table A-2, section 6.3.2).
pub const ACK_OVERFLOW: u8 = 0x03;

/// The status type that asks for the last message again, STATUS_GET_LAST_MESSAGE (table A-4).
pub const GET_LAST_MESSAGE: u8 = 0x01;

/// The status type of an advisory, STATUS_ADVISORY (table A-4).
pub const ADVISORY: u8 = 0x02;

/// The status type of a warning, STATUS_WARNING (table A-4).
pub const WARNING: u8 = 0x03;

/// The status type of an error, STATUS_ERROR (table A-4).
pub const ERROR: u8 = 0x04;

/// The parameter ID of the search for unmuted devices between two UIDs (section 7.5).
pub const DISC_UNIQUE_BRANCH: u16 = 0x0001;

/// The parameter ID that mutes a device (section 7.6).
pub const DISC_MUTE: u16 = 0x0002;

/// The parameter ID that un-mutes a device (section 7.6).
pub const DISC_UN_MUTE: u16 = 0x0003;

/// The parameter ID of which devices a proxy stands for (table A-3). No responder here has it.
pub const PROXIED_DEVICES: u16 = 0x0010;

/// The parameter ID of how many devices a proxy stands for (table A-3). No responder here has it.
pub const PROXIED_DEVICE_COUNT: u16 = 0x0011;

/// The parameter ID of the messages that wait for a controller (section 10.3.1).
pub const QUEUED_MESSAGE: u16 = 0x0020;

/// The parameter ID of the status entries of a device (section 10.3.2).
pub const STATUS_MESSAGES: u16 = 0x0030;

/// The parameter ID of what a sensor shows (section 10.7.2).
pub const SENSOR_VALUE: u16 = 0x0201;

/// The parameter ID of counts of faulty frames (table A-3). No responder here has it.
pub const COMMS_STATUS: u16 = 0x0015;

/// The parameter ID of what a parameter of the manufacturer is (table A-3). No responder here has it.
pub const PARAMETER_DESCRIPTION: u16 = 0x0051;

/// The parameter ID of what a product is, in detail (table A-3). No responder here has it.
pub const PRODUCT_DETAIL_ID_LIST: u16 = 0x0070;

/// The parameter ID of a clock (table A-3). No responder here has it.
pub const REAL_TIME_CLOCK: u16 = 0x0603;

/// The parameter ID that resets a device (table A-3). No responder here has it.
pub const RESET_DEVICE: u16 = 0x1001;

/// The parameter ID that stores a preset (table A-3). No responder here has it.
pub const CAPTURE_PRESET: u16 = 0x1030;

/// The sub-device number of the root device (section 9).
pub const ROOT_DEVICE: u16 = 0x0000;

/// The sub-device number by which a SET is for every sub-device at once (section 9).
pub const SUB_DEVICE_ALL_CALL: u16 = 0xFFFF;

/// The greatest number of sub-devices (section 9).
pub const MOST_SUB_DEVICES: u16 = 512;

/// The slots that follow the START code on a DMX512 line, and the greatest start address (section 10.6.3).
pub const MOST_DMX_SLOTS: u16 = 512;

/// The port ID of a controller that has one port (section 6.2.7).
pub const FIRST_PORT: u8 = 1;

/// The most slots of a frame: as many as the greatest message length says, 255, and the two of the checksum
/// (sections 6.2.3 and 6.2.11).
pub const MOST_SLOTS: usize = 257;

/// The most parameter data that a frame can carry (section 6.2.10).
pub const MOST_DATA: usize = 231;

/// The most bytes of a text (section 10.5).
pub const MOST_TEXT: usize = 32;

/// The number by which a command is for every sensor at once (section 10.7).
pub const ALL_SENSORS: u8 = 0xFF;
