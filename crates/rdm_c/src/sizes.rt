//! How many bytes the structs have that C hands in and out. `c/sizes.c` says the same of those in the header.

use crate::found::FoundNumbers;
use crate::handle::Handle;
use crate::image::ImageNumbers;
use crate::job::{JobNumbers, SteppedNumbers};
use crate::left::LeftNumbers;
use crate::message::{CommandNumbers, HeardNumbers, MessageNumbers};
use crate::names::NameNumbers;
use crate::outcome::OutcomeNumbers;
use crate::profile::modes::ModeNumbers;
use crate::profile::parameters::{ChoiceNumbers, FieldNumbers, LockNumbers, ParameterNumbers};
use crate::profile::slow::{EstimatesNumbers, WorkersNumbers};
use crate::profile::{
    PersonalityNumbers, ProfileNumbers, SelfTestNumbers, SensorNumbers, SlotNumbers,
    StatusTextNumbers, TextNumbers, UnitNumbers,
};
use crate::reply::ReplyNumbers;
use rdm_deadlines::Deadlines;
use rdm_receiver::Receiver;
use std::mem::size_of;

const _: () = prove!(size_of::<Handle>() == 8);

const _: () = prove!(size_of::<TextNumbers>() == 33);

const _: () = prove!(size_of::<PersonalityNumbers>() == 36);

const _: () = prove!(size_of::<SlotNumbers>() == 38);

const _: () = prove!(size_of::<SensorNumbers>() == 46);

const _: () = prove!(size_of::<SelfTestNumbers>() == 34);

const _: () = prove!(size_of::<StatusTextNumbers>() == 36);

const _: () = prove!(size_of::<EstimatesNumbers>() == 8);

const _: () = prove!(size_of::<WorkersNumbers>() == 4);

const _: () = prove!(size_of::<UnitNumbers>() == 432);

const _: () = prove!(size_of::<FieldNumbers>() == 16);

const _: () = prove!(size_of::<ChoiceNumbers>() == 40);

const _: () = prove!(size_of::<ParameterNumbers>() == 224);

const _: () = prove!(size_of::<LockNumbers>() == 4);

const _: () = prove!(size_of::<ModeNumbers>() == 40);

const _: () = prove!(size_of::<ProfileNumbers>() == 3968);

const _: () = prove!(size_of::<JobNumbers>() == 16);

const _: () = prove!(size_of::<SteppedNumbers>() == 32);

const _: () = prove!(size_of::<OutcomeNumbers>() == 10);

const _: () = prove!(size_of::<CommandNumbers>() == 12);

const _: () = prove!(size_of::<HeardNumbers>() == 6);

const _: () = prove!(size_of::<MessageNumbers>() == 256);

const _: () = prove!(size_of::<FoundNumbers>() == 16);

const _: () = prove!(size_of::<NameNumbers>() == 16);

const _: () = prove!(size_of::<ReplyNumbers>() == 256);

const _: () = prove!(size_of::<Receiver>() == 260);

const _: () = prove!(size_of::<ImageNumbers>() == 6);

const _: () = prove!(size_of::<LeftNumbers>() == 16);

const _: () = prove!(size_of::<Deadlines>() == 32);
