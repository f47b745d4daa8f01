//! The answer to DISC_UNIQUE_BRANCH, which isn't a frame.

ghost use Rattle.std.specs.Prelude.{◌≡◌, ◌≤◌, length, Some};
ghost use Rattle.rdm_frame.specs.FrameText.{IsUid};
ghost use Rattle.rdm_frame.specs.Discovery.{branch_reply, coded_uid, coded_sum, uncoded_uid, IsBranchReply};

use crate::Uid;
use crate::encoding::checksum_of;

/// What stands before the coded UID, seven times.
const PREAMBLE: u8 = 0xFE;

/// What ends the preamble.
const SEPARATOR: u8 = 0xAA;

/// The bits of a byte that its first coded byte has all set, and those that its second has.
const FIRST_MASK: u8 = 0xAA;

const SECOND_MASK: u8 = 0x55;

/// How many bytes an answer has: the preamble of seven, the separator, twelve of the coded UID and four of its checksum.
const REPLY_BYTES: usize = 24;

/// How many of these stand behind the separator.
const CODED_BYTES: usize = 16;

/// The 24 bytes by which the device with this UID answers DISC_UNIQUE_BRANCH (E1.20 section 7.5).
#[tactic(auto, unfolding(crate::specs::Discovery::branch_reply))]
pub fn disc_reply(uid: Uid) -> [u8; 24]
    ensures { result ≡ branch_reply uid }
{
    let u = coded_uid(uid);
    let c = coded_sum(&u);
    [
        PREAMBLE, PREAMBLE, PREAMBLE, PREAMBLE, PREAMBLE, PREAMBLE, PREAMBLE, SEPARATOR, u[0],
        u[1], u[2], u[3], u[4], u[5], u[6], u[7], u[8], u[9], u[10], u[11], c[0], c[1], c[2], c[3],
    ]
}

/// The UID whose device answers DISC_UNIQUE_BRANCH by these bytes, if they are such an answer. A controller takes it with
/// 0 to 7 bytes of the preamble, since what stands between may lose the first of them (E1.20 section 7.5).
pub fn branch_uid(bytes: &[u8]) -> Option<Uid>
    // Each answer is read.
    ensures read { (uid : Uid) → IsUid uid → IsBranchReply uid bytes.now → result ≡ Some uid }
    // What is read is an answer of that UID.
    ensures only { (uid : Uid) → result ≡ Some uid → IsUid uid × IsBranchReply uid bytes.now }
{
    let len = bytes.len();
    if len <= CODED_BYTES || len > REPLY_BYTES {
        return None;
    }
    let uid = uncoded_uid(&bytes[len - CODED_BYTES..]);
    let reply = disc_reply(uid);
    if bytes == &reply[REPLY_BYTES - len..] {
        Some(uid)
    } else {
        None
    }
}

/// The UID that coded bytes are read as: of each byte the bits that both coded ones have set.
fn uncoded_uid(coded: &[u8]) -> Uid
    requires { 12 ≤ length coded.now }
    ensures { result ≡ uncoded_uid coded.now }
{
    Uid {
        maker: u16::from_be_bytes([coded[0] & coded[1], coded[2] & coded[3]]),
        device: u32::from_be_bytes([
            coded[4] & coded[5],
            coded[6] & coded[7],
            coded[8] & coded[9],
            coded[10] & coded[11],
        ]),
    }
}

/// The six bytes of a UID, each coded as two.
fn coded_uid(uid: Uid) -> [u8; 12]
    ensures { result ≡ coded_uid uid }
{
    let maker = uid.maker.to_be_bytes();
    let device = uid.device.to_be_bytes();
    [
        maker[0] | FIRST_MASK,
        maker[0] | SECOND_MASK,
        maker[1] | FIRST_MASK,
        maker[1] | SECOND_MASK,
        device[0] | FIRST_MASK,
        device[0] | SECOND_MASK,
        device[1] | FIRST_MASK,
        device[1] | SECOND_MASK,
        device[2] | FIRST_MASK,
        device[2] | SECOND_MASK,
        device[3] | FIRST_MASK,
        device[3] | SECOND_MASK,
    ]
}

/// The two bytes of the checksum of a coded UID, each coded as two.
fn coded_sum(coded: &[u8; 12]) -> [u8; 4]
    ensures { result ≡ coded_sum coded.now }
{
    let sum = checksum_of(coded).to_be_bytes();
    [
        sum[0] | FIRST_MASK,
        sum[0] | SECOND_MASK,
        sum[1] | FIRST_MASK,
        sum[1] | SECOND_MASK,
    ]
}
