//! What a response says, as C asks for it.

ghost use Rattle.std.specs.Prelude.{◌≡◌, ◌≢◌, MatchOption};
ghost use Rattle.rdm_collector.specs.Replies.{reply_in};
ghost use Rattle.rdm_c.specs.Replies.{Says};
ghost use Rattle.rdm_c.specs.Statuses.{code_of};

use crate::reply::ReplyNumbers;
use crate::status::Status;
use rdm_collector::read_reply;

/// Reads a response: how the request is answered, and the data. No handle is needed, and whom the response is for isn't asked:
/// `felosumay_collector_hear_nonnull` says whether it answers the open request. If the bytes aren't a response, nothing is written.
#[unsafe(no_mangle)]
pub extern "C" fn felosumay_reply_read_nonnull(bytes: &[u8], reply: &mut ReplyNumbers) -> u8
    ensures told { MatchOption (reply_in bytes.now) (result ≡ code_of Status.NoReply)
        (λ said. (result ≡ code_of Status.Done) × Says reply.new said) }
    ensures same { result ≢ code_of Status.Done → reply.new ≡ reply.old }
{
    let Some(read) = read_reply(bytes) else {
        return Status::NoReply.code();
    };
    reply.tell(&read);
    Status::Done.code()
}
