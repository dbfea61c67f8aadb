// The fields of a message's body, for a step that goes by the number of its kind: the number determines the body. What a body of another kind gives here is
// looked at by nobody.
ghost use Rattle.std.specs.Prelude.{◌≡◌};
ghost use Rattle.codec.specs.Message.{kind_of};
ghost use Rattle.codec.specs.declared.MessageBody.TheVariants.{SyncReply, Input, InputAck, ChecksumReport};

use checksums::Checksum;
use codec::MessageBody;

// An Input without its statuses and its payload.
#[derive(Clone, Copy)]
pub struct InputHead {
    pub disconnect_requested: bool,
    pub start_frame: u32,
    pub ack_frame: u32,
}

pub(crate) fn reply_of(body: MessageBody) -> u32
    ensures { kind_of body ≡ 1 → body ≡ SyncReply result }
{
    let MessageBody::SyncReply { random_reply } = body else {
        return 0;
    };
    random_reply
}

pub(crate) fn input_of(body: MessageBody) -> InputHead
    ensures { kind_of body ≡ 2 → body ≡ Input result.disconnect_requested result.start_frame result.ack_frame }
{
    let MessageBody::Input {
        disconnect_requested,
        start_frame,
        ack_frame,
    } = body
    else {
        return InputHead {
            disconnect_requested: false,
            start_frame: 0,
            ack_frame: 0,
        };
    };
    InputHead {
        disconnect_requested,
        start_frame,
        ack_frame,
    }
}

pub(crate) fn ack_of(body: MessageBody) -> u32
    ensures { kind_of body ≡ 3 → body ≡ InputAck result }
{
    let MessageBody::InputAck { ack_frame } = body else {
        return 0;
    };
    ack_frame
}

pub(crate) fn checksum_of(body: MessageBody) -> Checksum
    ensures { kind_of body ≡ 6 → body ≡ ChecksumReport (record { low = result.low; high = result.high }) result.frame }
{
    let MessageBody::ChecksumReport { checksum, frame } = body else {
        return Checksum {
            frame: 0,
            low: 0,
            high: 0,
        };
    };
    Checksum {
        frame,
        low: checksum.low,
        high: checksum.high,
    }
}
