//! What became of a call.

ghost use Rattle.std.specs.Prelude.{◌≡◌};
ghost use Rattle.rdm_c.specs.Statuses.{code_of};

/// What became of a call, as `enum` of the header lists it.
#[derive(Clone, Copy)]
pub enum Status {
    /// It was carried out.
    Done,
    /// Out of memory.
    OutOfMemory,
    /// The profile breaks a rule, or has too many sub-devices.
    BadProfile,
    /// The size of the queue, or the number of status entries, isn't 1 to 1,024.
    BadSize,
    /// The UID addresses more than one device.
    BadUid,
    /// The handle holds nothing that such a call is for.
    Absent,
    /// The report isn't of the oldest job of its worker, or its outcome doesn't fit.
    Astray,
    /// A number that was handed in stands for nothing.
    Unknown,
    /// The command is rejected, and a reason is given.
    Refused,
    /// The command doesn't answer with a value.
    NoValue,
    /// Only the collector itself may ask for the parameter.
    Reserved,
    /// A transaction is open.
    Busy,
    /// There are more data than fit.
    TooLong,
    /// There is nothing more.
    NoMore,
    /// There is no room for one more message.
    NoRoom,
    /// The value is out of range, or there is no such sensor.
    OutOfRange,
    /// The search took as many transactions as it may.
    Limit,
    /// There is no such sub-device.
    NoDevice,
    /// The device stores no value of the parameter.
    NotStored,
    /// The data have another length than the value.
    BadLength,
    /// There is no room for the image.
    ShortImage,
    /// The image has another length than it says.
    ImageLength,
    /// The image is altered.
    AlteredImage,
    /// The image is of another manufacturer or model.
    ForeignImage,
    /// The bytes aren't a response.
    NoReply,
    /// Another responder lies in the memory. `felosumay_memory.h` says so.
    InUse,
    /// The memory doesn't begin at a multiple of 16.
    Unaligned,
    /// There is too little memory for the responder.
    ShortMemory,
    /// Neither area holds an image of the key.
    NoImage,
    /// A function of the firmware's areas says that it failed. `felosumay_images.h` says so.
    FlashFailed,
}

impl Status {
    /// The code that C is told.
    pub(crate) fn code(self) -> u8
        ensures { result ≡ code_of self }
    {
        match self {
            Status::Done => 0,
            Status::OutOfMemory => 1,
            Status::BadProfile => 2,
            Status::BadSize => 3,
            Status::BadUid => 4,
            Status::Absent => 5,
            Status::Astray => 6,
            Status::Unknown => 7,
            Status::Refused => 8,
            Status::NoValue => 9,
            Status::Reserved => 10,
            Status::Busy => 11,
            Status::TooLong => 12,
            Status::NoMore => 13,
            Status::NoRoom => 14,
            Status::OutOfRange => 15,
            Status::Limit => 16,
            Status::NoDevice => 17,
            Status::NotStored => 18,
            Status::BadLength => 19,
            Status::ShortImage => 20,
            Status::ImageLength => 21,
            Status::AlteredImage => 22,
            Status::ForeignImage => 23,
            Status::NoReply => 24,
            Status::InUse => 25,
            Status::Unaligned => 26,
            Status::ShortMemory => 27,
            Status::NoImage => 28,
            Status::FlashFailed => 29,
        }
    }
}
