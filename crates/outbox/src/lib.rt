// The send queue: a lent byte buffer in which messages stand back to back. One more is written at
// its end, or nothing where it does not fit.
// The buffer and the place in it are two parameters: the queue is the owner's, and the clauses (`QueuedAs`) are over the whole buffer and the place.
#![tactic(auto)]

mod inputs;

ghost use Rattle.codec.specs.Read.{body_only};
ghost use Rattle.outbox.specs.Outbox.{QueuedAs};

use answer::Refusal;
use codec::{Message, MessageBody};
pub use inputs::{input_size, pending_input};

// A message without statuses and payload. Answers where the queue now ends.
#[tactic(auto, using(codec::proofs::Meant::meant_body_only, crate::proofs::Writes::queued, base::proofs::Arrays::unmap))]
pub fn body_only(out: &mut [u8], at: usize, magic: u16, body: MessageBody) -> Result<usize, Refusal>
    ensures { QueuedAs out.old at (body_only magic body) result out.new }
{
    let message = Message {
        magic,
        body,
        reports: codec::no_reports(),
    };
    codec::write(out, at, message, &[])
}
