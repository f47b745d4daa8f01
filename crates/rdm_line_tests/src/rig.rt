//! Lines for tests.

ghost use Rattle.std.specs.Prelude.{IfOk};
ghost use Rattle.rdm_responder.specs.History.{History};
ghost use Rattle.rdm_line.specs.Searching.{HasHistories};
ghost use Rattle.rdm_responder.specs.StandsFor.{StandsFor};

use rdm_frame::standard::{FIRST_PORT, ROOT_DEVICE};
use rdm_frame::{Body, Frame, Uid, Wire, encode};
use rdm_line::{Collision, Line};
use rdm_params::Profile;
use rdm_responder::{Responder, Settings};
use std::alloc::Global;
use std::test::Fail;

/// The UID of the console.
pub const CONSOLE: Uid = Uid {
    maker: 0x7FF0,
    device: 9,
};

/// A device with this UID.
pub fn device(alloc: Global, uid: Uid) -> Result<Responder, Fail>
    ensures { IfOk result (λ d. (h : History) × StandsFor d h) }
{
    let settings = Settings {
        uid,
        queue_size: 1,
        entries: 1,
        first_job: 0,
    };
    let profile = Box::new(alloc, Profile::demo(0))?;
    let device = Responder::with_settings(alloc, &settings, profile)?;
    Ok(device)
}

/// A line with devices of these UIDs.
pub fn line(alloc: Global, rule: Collision, uids: &[Uid]) -> Result<Line<Responder>, Fail>
    ensures { IfOk result (λ l. HasHistories StandsFor l) }
{
    let mut line = Line::new(alloc, rule);
    for uid in uids {
        let _ = line.join(device(alloc, *uid)?);
    }
    Ok(line)
}

/// The bytes of a request to the root of a device, without data.
pub fn request(dst: Uid, class: u8, pid: u16) -> Wire {
    encode(&Frame {
        dst,
        src: CONSOLE,
        tn: 1,
        port: FIRST_PORT,
        count: 0,
        sub: ROOT_DEVICE,
        class,
        pid,
        body: Body::new(),
    })
}
