//! What the status of a device tells.

use rdm_frame::standard::GET_LAST_MESSAGE;
use rdm_params::Severity;
use rdm_standard_names::Table;

/// A status type, as `warning` (table A-4).
pub(crate) fn status_type(code: u8) -> Option<&'static str> {
    match code {
        0x00 => Some("none"),
        GET_LAST_MESSAGE => Some("get last message"),
        _ => match Severity::of(code) {
            Some(severity) => Some(severity.name()),
            None => None,
        },
    }
}

/// What a status ID means (table B-2). In its place stands the next of two values: for `%d` as a number, and for `%L` as the
/// name of a slot.
pub const STATUS_IDS: Table = Table(&[
    (0x0001, "%L failed calibration"),
    (0x0002, "%L sensor not found"),
    (0x0003, "%L sensor always on"),
    (0x0004, "%L feedback error"),
    (0x0005, "%L index circuit error"),
    (0x0011, "lamp doused"),
    (0x0012, "lamp failed to strike"),
    (0x0013, "lamp access open"),
    (0x0014, "lamp on without command"),
    (0x0021, "sensor %d over temp at %d degrees C"),
    (0x0022, "sensor %d under temp at %d degrees C"),
    (0x0023, "sensor %d out of range"),
    (0x0031, "phase %d over voltage at %d V"),
    (0x0032, "phase %d under voltage at %d V"),
    (0x0033, "phase %d over current at %d A"),
    (0x0034, "phase %d under current at %d A"),
    (0x0035, "phase %d is at %d degrees"),
    (0x0036, "phase %d error"),
    (0x0037, "%d amps"),
    (0x0038, "%d volts"),
    (0x0041, "no dimmer"),
    (0x0042, "tripped breaker"),
    (0x0043, "%d watts"),
    (0x0044, "dimmer failure"),
    (0x0045, "panic mode"),
    (0x0046, "lamp or cable failure"),
    (0x0050, "%L ready"),
    (0x0051, "%L not ready"),
    (0x0052, "%L low fluid"),
    (0x0060, "EEPROM error"),
    (0x0061, "RAM error"),
    (0x0062, "FPGA programming error"),
    (
        0x0070,
        "proxy dropped a broadcast: PID %x at transaction %d",
    ),
    (0x0071, "DMX512 with START code %x received OK"),
    (0x0072, "DMX512 with START code %x now dropped"),
    (0x0080, "DMX512 null START code never received"),
    (0x0081, "DMX512 null START code received, now dropped"),
    (0x0082, "DMX512 null START code timing or packet error"),
    (0x0083, "DMX512 null START code received OK"),
]);
