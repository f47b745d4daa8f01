//! A fixture by a clock that tells what a test wants, on lines that are lists of bytes.

mod courses;
mod faults;
mod rig;
mod streams;
mod time;

use rdm_frame::Uid;
use rdm_outcomes::demo_rules;
use rdm_params::Profile;
use rdm_widget::{Clock, LiveFixture, ServeError, packet_of, serve};
use std::io::{Read, Write};
use std::process::Abort;

/// A message: its label, and its body in hexadecimal digits.
type Line = (u8, &'static str);

/// A clock that tells these times, one after another, and then 0.
#[derive(Drop)]
struct Told<'a> {
    times: &'a [u64],
}

impl Clock for Told<'_> {
    ghost tells = { λ _ _ _. Unit {0} };

    fn now(&mut self) -> u64 {
        let Some((first, rest)) = self.times.split_first() else {
            return 0;
        };
        self.times = rest;
        *first
    }
}

/// The bytes of messages.
fn stream(rt: &(impl AllocGlobal + Abort), lines: &[Line]) -> Vec<u8> {
    let mut bytes = Vec::new(rt.alloc());
    for (label, digits) in lines {
        put(rt, &mut bytes, *label, "", digits);
    }
    bytes
}

/// Puts the bytes of a message behind others. Its body is in two parts, both in hexadecimal digits.
fn put(rt: &(impl AllocGlobal + Abort), bytes: &mut Vec<u8>, label: u8, head: &str, rest: &str) {
    let mut body = hex::decode(rt.alloc(), head).expect(rt, "two digits a byte");
    let rest = hex::decode(rt.alloc(), rest).expect(rt, "two digits a byte");
    body.extend_from_slice(rest.as_slice()).expect(rt, "memory");
    assert!(rt; body.len() <= 600);
    let packet = packet_of(label, body.as_slice());
    bytes
        .extend_from_slice(packet.as_slice())
        .expect(rt, "memory");
}

/// The demonstration fixture.
fn fixture(rt: &(impl AllocGlobal + Abort)) -> LiveFixture {
    fixture_with(rt, 1)
}

/// The demonstration fixture with this device ID.
fn fixture_with(rt: &(impl AllocGlobal + Abort), device: u32) -> LiveFixture {
    fixture_of(rt, device, Profile::demo(0))
}

/// A fixture of this profile with this device ID, whose jobs end as in the demonstration.
fn fixture_of(rt: &(impl AllocGlobal + Abort), device: u32, profile: Profile) -> LiveFixture {
    let uid = Uid {
        maker: 0x7FF0,
        device,
    };
    LiveFixture::new(rt.alloc(), uid, profile, 8, &demo_rules()).expect(rt, "memory")
}

/// Serves what is read by a clock that tells these times.
fn serve_at<R: Read, W: Write>(
    rt: &(impl AllocGlobal + Abort),
    reader: &mut R,
    writer: &mut W,
    times: &[u64],
) -> Result<(), ServeError> {
    serve(reader, writer, &mut Told { times }, &mut fixture(rt))
}

/// What is answered to these bytes by a clock that tells these times.
fn answers(rt: &(impl AllocGlobal + Abort), input: &[u8], times: &[u64]) -> Vec<u8> {
    let mut output = Vec::new(rt.alloc());
    let mut reader = input;
    serve_at(rt, &mut reader, &mut output, times).expect(rt, "nothing fails");
    output
}
