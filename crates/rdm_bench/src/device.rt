//! The device that hears frames.

ghost use Rattle.std.specs.Prelude.{◌≡◌, ◌≤◌, IfOk, length};
ghost use Rattle.rdm_responder.specs.History.{empty_history};
ghost use Rattle.rdm_responder.specs.StandsFor.{StandsFor};
ghost use Rattle.rdm_bench.specs.Device.{own_number, own_numbers, bench_profile};
ghost use Rattle.rdm_bench.specs.Replay.{bench_setup};

use rdm_frame::{Text, Uid};
use rdm_params::{OwnParameters, ParameterDef, Particular, Particulars, Profile, Rights, Shape};
use rdm_responder::{NewError, Responder};
use std::alloc::{AllocError, Global};

/// Its UID.
pub(crate) const DEVICE: Uid = Uid {
    maker: 0x7FF0,
    device: 1,
};

/// How many results of slow commands it has room for.
const QUEUE_SIZE: u16 = 1024;

/// The responder that hears the frames, just switched on.
#[tactic(auto, using(crate::proofs::GoodProfile::bench_can_be_made))]
pub(crate) fn responder_with(alloc: Global, own: bool, subs: u16) -> Result<Responder, AllocError>
    requires { subs ≤ 512 }
    ensures { IfOk result (λ responder. StandsFor responder (empty_history (bench_setup own subs))) }
{
    let profile = profile_with(alloc, own, subs)?;
    match Responder::new(alloc, DEVICE, profile, QUEUE_SIZE) {
        Ok(responder) => Ok(responder),
        Err(NewError::OutOfMemory) => Err(AllocError),
        // The UID addresses one device, and size and profile are such as a responder takes.
        Err(NewError::BadProfile | NewError::BadSize | NewError::BadUid) => unreachable!(),
    }
}

/// Its profile, with two parameters of its maker's own or with none.
fn profile_with(alloc: Global, own: bool, subs: u16) -> Result<Profile, AllocError>
    ensures { IfOk result (λ profile. profile ≡ bench_profile own subs) }
{
    let mut profile = Profile::demo(subs);
    if !own {
        return Ok(profile);
    }
    let mut particular = Particular::usual();
    particular.own = own_numbers(alloc)?;
    profile.particulars = Particulars::of(alloc, particular)?;
    Ok(profile)
}

/// The two.
fn own_numbers(alloc: Global) -> Result<OwnParameters, AllocError>
    ensures { IfOk result (λ own. own ≡ own_numbers) }
{
    let mut own = OwnParameters::none();
    own.push(alloc, number(0x8000, Shape::Word, 65535, &[0, 0]))?;
    own.push(alloc, number(0x8001, Shape::Byte, 255, &[0]))?;
    Ok(own)
}

/// A number from 0 on, with GET and SET.
fn number(pid: u16, shape: Shape, high: i64, start: &[u8]) -> ParameterDef
    requires { length start.now ≤ 32 }
    ensures { result ≡ own_number pid shape high start.now }
{
    let mut def = ParameterDef::default();
    def.pid = pid;
    def.rights = Rights::Both;
    def.shape = shape;
    def.high = high;
    def.start = Text::of(start);
    def.resets = true;
    def
}
