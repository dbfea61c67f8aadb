// A datagram's line up to the payload.
ghost use Rattle.codec.specs.Message.{report_list};
ghost use Rattle.text.specs.Draft.{Holds};
ghost use Rattle.message_line.specs.Head.{head_of};
ghost use Rattle.message_line.specs.Line.{head_text};

use crate::body::{fields, kind};
use crate::draft::put;
use crate::field::number;
use codec::Message;
use text::Draft;

// The payload has `length` bytes.
#[tactic(auto, using(text::proofs::PieceLaws::both, text::proofs::PieceLaws::empty_holds, crate::proofs::HeadLaws::read_head, crate::proofs::HeadLaws::refused_head, text::proofs::PieceLaws::same_text, text::proofs::PieceLaws::wider), unfolding(text::specs::Ascii::ascii))]
pub(crate) fn head_of(datagram: &[u8], length: usize) -> Draft
    ensures { Holds (head_of datagram.now length) 250 result }
{
    match codec::read(datagram) {
        Ok(message) => head(message, length),
        Err(refusal) => number(Draft::new(), b"refused ", u64::from(refusal.number())),
    }
}

#[tactic(auto, using(text::proofs::PieceLaws::both, text::proofs::PieceLaws::empty_holds, text::proofs::PieceLaws::wider), unfolding(text::specs::Ascii::ascii, crate::specs::Line::field, crate::specs::Line::head_text))]
fn head(message: Message, length: usize) -> Draft
    ensures { Holds (head_text message.magic message.body (report_list message.reports) length) 250 result }
{
    let name = put(Draft::new(), kind(message.body));
    let next = number(name, b" magic ", u64::from(message.magic));
    fields(next, message, length)
}
