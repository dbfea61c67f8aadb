// A message's body: the name of its kind, and its fields up to an Input's payload.
ghost use Rattle.std.specs.Prelude.{◌≡◌, ◌≤◌, length};
ghost use Rattle.codec.specs.Message.{report_list};
ghost use Rattle.text.specs.Ascii.{ascii};
ghost use Rattle.text.specs.Draft.{Adds};
ghost use Rattle.message_line.specs.Line.{kind_name, fields_text};

use crate::field::{number, signed, wide};
use crate::input::input;
use codec::{Message, MessageBody};
use frame::{BIAS16, BIAS32};
use text::Draft;

// An advantage is printed as a frame is, with its own bias.
const ADVANTAGE_BIAS: u32 = BIAS16 as u32;

#[tactic(auto, unfolding(text::specs::Ascii::ascii, crate::specs::Line::kind_name))]
pub(crate) fn kind(body: MessageBody) -> &'static [u8]
    ensures name { result.now ≡ ascii (kind_name body) }
    ensures short { length result.now ≤ 14 }
{
    match body {
        MessageBody::SyncRequest { .. } => b"SyncRequest",
        MessageBody::SyncReply { .. } => b"SyncReply",
        MessageBody::Input { .. } => b"Input",
        MessageBody::InputAck { .. } => b"InputAck",
        MessageBody::QualityReport { .. } => b"QualityReport",
        MessageBody::QualityReply { .. } => b"QualityReply",
        MessageBody::ChecksumReport { .. } => b"ChecksumReport",
        MessageBody::KeepAlive => b"KeepAlive",
    }
}

// An Input's payload has `length` bytes.
#[tactic(auto, using(text::proofs::PieceLaws::both_adds, text::proofs::PieceLaws::wider), unfolding(text::specs::Ascii::ascii, crate::specs::Line::field, crate::specs::Line::fields_text))]
pub(crate) fn fields(draft: Draft, message: Message, length: usize) -> Draft
    requires { draft.text.count ≤ 41 }
    ensures { Adds draft (fields_text message.body (report_list message.reports) length) 209 result }
{
    match message.body {
        MessageBody::SyncRequest { random_request } => {
            number(draft, b" nonce ", u64::from(random_request))
        }
        MessageBody::SyncReply { random_reply } => number(
            draft,
            b" nonce ",
            u64::from(random_reply),
        ),
        MessageBody::Input {
            disconnect_requested,
            start_frame,
            ack_frame,
        } => {
            input(
                draft,
                message.reports.as_slice(),
                disconnect_requested,
                start_frame,
                ack_frame,
                length,
            )
        }
        MessageBody::InputAck { ack_frame } => signed(draft, b" ack ", ack_frame, BIAS32),
        MessageBody::QualityReport {
            frame_advantage,
            ping,
        } => {
            let next = signed(
                draft,
                b" advantage ",
                u32::from(frame_advantage),
                ADVANTAGE_BIAS,
            );
            wide(next, b" ping ", ping)
        }
        MessageBody::QualityReply { pong } => wide(draft, b" pong ", pong),
        MessageBody::ChecksumReport { checksum, frame } => {
            let next = wide(draft, b" checksum ", checksum);
            signed(next, b" frame ", frame, BIAS32)
        }
        MessageBody::KeepAlive => draft,
    }
}
