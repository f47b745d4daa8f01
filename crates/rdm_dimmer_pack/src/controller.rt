//! What a controller sends to the pack. A fixture has no such file: its requests come over the bus.

ghost use Rattle.std.specs.Prelude.{◌≤◌, length};

use crate::PACK;
use rdm_frame::standard::{FIRST_PORT, GET_COMMAND, ROOT_DEVICE, SET_COMMAND};
use rdm_frame::{Body, Frame, Uid, Wire, encode};
use rdm_responder::Kind;

const CONTROLLER: Uid = Uid {
    maker: 0x7FF0,
    device: 2,
};

/// What it sends to read a parameter of the pack.
pub(crate) fn get(tn: u8, kind: Kind, load: &[u8]) -> Wire
    requires { length load.now ≤ 231 }
{
    request(tn, GET_COMMAND, kind, load)
}

/// What it sends to change one.
pub(crate) fn set(tn: u8, kind: Kind, load: &[u8]) -> Wire
    requires { length load.now ≤ 231 }
{
    request(tn, SET_COMMAND, kind, load)
}

fn request(tn: u8, class: u8, kind: Kind, load: &[u8]) -> Wire
    requires { length load.now ≤ 231 }
{
    encode(&Frame {
        dst: PACK,
        src: CONTROLLER,
        tn,
        port: FIRST_PORT,
        count: 0,
        sub: ROOT_DEVICE,
        class,
        pid: kind.pid(),
        body: Body::of(load),
    })
}
