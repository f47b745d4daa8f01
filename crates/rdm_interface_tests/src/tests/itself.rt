//! What the interface says of itself.

use super::{Line, interface, stream};
use rdm_interface::Parameters;

/// Firmware 2.4, a break of 9, a mark of 1 and 40 packets a second, behind an answer to another question.
const TOLD: &[Line] = &[(10, "01000000"), (3, "0402090128")];

const PARAMETERS: Parameters = Parameters {
    firmware: 0x0204,
    break_time: 9,
    mark_time: 1,
    rate: 40,
};

#[test]
fn parameters_are_asked_for(rt: HostRuntime) {
    let came = stream(&rt, TOLD);
    let pieces: [&[u8]; 1] = [came.as_slice()];
    let mut line = interface(&rt, &pieces);
    let told = line.parameters().expect(&rt, "nothing fails");
    let (_reader, written, _clock) = line.into_parts();
    let asked = [0x7E, 3, 2, 0, 0, 0, 0xE7];
    assert!(rt; (told, written.as_slice()) == (Some(PARAMETERS), asked.as_slice()));
}

#[test]
fn a_serial_number_is_asked_for(rt: HostRuntime) {
    let came = stream(&rt, &[(3, "0402090128"), (10, "78563412")]);
    let pieces: [&[u8]; 1] = [came.as_slice()];
    let mut line = interface(&rt, &pieces);
    let told = line.serial_number().expect(&rt, "nothing fails");
    let (_reader, written, _clock) = line.into_parts();
    let asked = [0x7E, 10, 0, 0, 0xE7];
    assert!(rt; (told, written.as_slice()) == (Some(0x1234_5678), asked.as_slice()));
}

/// Too short, and no answer at all.
#[test]
fn an_answer_without_its_bytes_is_none(rt: HostRuntime) {
    let came = stream(&rt, &[(3, "04020901"), (10, "785634"), (10, "7856341200")]);
    let pieces: [&[u8]; 1] = [came.as_slice()];
    let mut line = interface(&rt, &pieces);
    let parameters = line.parameters().expect(&rt, "nothing fails");
    assert!(rt; parameters.is_none());
    for _ in 0..3 {
        let number = line.serial_number().expect(&rt, "nothing fails");
        assert!(rt; number.is_none());
    }
}
