// The writer: a message's bytes at a place of a lent buffer. Everything is known to fit before the
// first byte is written, so a refusal leaves the buffer as it was. A buffer and a place in it are two parameters:
// a struct of both would have to say in each contract that it still holds the same buffer.
ghost use Rattle.std.specs.Prelude.{◌≡◌, true, [], ◌++◌, ◌+◌, ◌*◌, ◌≤◌};
ghost use lib.ListN.{length};
ghost use Rattle.base.specs.Little.{le};
ghost use Rattle.ceilings.specs.Ceilings.{most_players};
ghost use Rattle.codec.specs.Message.{is_input, report_list, meant};
ghost use Rattle.codec.specs.Bytes.{flag_bytes, frame_bytes, advantage_bytes, wide_bytes, report_bytes, reports_bytes, statuses_bytes, input_bytes, body_bytes, head};
ghost use Rattle.codec.specs.Calls.{shown_size, size_as, HeadAs, WrittenAs};
ghost use Rattle.codec.specs.Put.{PutAs, ReportPut, ReportsPut, StatusesPut, BodyPut, HeadPut};

use crate::{
    FIXED_SIZES, Message, MessageBody, STATUS_SIZE, StatusReport, StatusReports, Wide, kind_of,
};
use answer::Refusal;
use ceilings::{MOST_PAYLOAD, MOST_PLAYERS};

// The bytes that a message takes with a payload of `length` bytes.
#[tactic(auto, using(crate::proofs::Sizes::kind_below, crate::proofs::Sizes::size_input, crate::proofs::Sizes::size_other, crate::proofs::Sizes::size_payload, crate::proofs::Sizes::size_statuses))]
pub fn size_of(message: Message, length: usize) -> Result<usize, Refusal>
    ensures { shown_size result ≡ size_as message length }
{
    let fixed = FIXED_SIZES[kind_of(message.body) as usize];
    if !message.body.is_input() {
        return Ok(fixed);
    }
    let count = message.reports.count;
    if MOST_PLAYERS < count || MOST_PAYLOAD < length {
        return Err(Refusal::TooLong);
    }
    Ok(fixed + (STATUS_SIZE * count + length))
}

// Writes all of a message but an Input's payload, for which the room is tested too: the caller puts
// its `length` bytes at the place that is answered.
#[tactic(auto, using(crate::proofs::Sizes::is_size, crate::proofs::Sizes::size_head, base::proofs::Arrays::unmap))]
pub fn write_head(
    out: &mut [u8],
    at: usize,
    message: Message,
    length: usize,
) -> Result<usize, Refusal>
    ensures { HeadAs out.old at message length result out.new }
{
    let size = size_of(message, length)?;
    if out.len() < at || out.len() - at < size {
        return Err(Refusal::Full);
    }
    Ok(put_head(out, at, message, length))
}

// Writes a message with its payload, and answers the place after it.
pub fn write(out: &mut [u8], at: usize, message: Message, payload: &[u8]) -> Result<usize, Refusal>
    ensures { WrittenAs out.old at message payload.now result out.new }
{
    let end = write_head(out, at, message, payload.len())?;
    if !message.body.is_input() {
        return Ok(end);
    }
    Ok(put(out, end, payload))
}

#[tactic(auto, using(crate::proofs::Put::room_first, crate::proofs::Put::room_second), unfolding(crate::specs::Bytes::head, crate::specs::Message::meant))]
fn put_head(out: &mut [u8], at: usize, message: Message, length: usize) -> usize
    requires room { at + lib.ListN.length (head (meant message []) length) ≤ lib.ListN.length out.old }
    requires count_le_most_players { is_input message.body ≡ true → message.reports.count ≤ most_players }
    ensures { HeadPut message length out.old at result out.new }
{
    let next = put_u16(out, at, message.magic);
    let next = put_u32(out, next, kind_of(message.body));
    put_body(out, next, message, length)
}

#[tactic(auto, using(crate::proofs::Put::room_first, crate::proofs::Put::room_second, crate::proofs::Bodies::room_as), unfolding(crate::specs::Bytes::body_bytes, crate::specs::Message::is_input))]
fn put_body(out: &mut [u8], at: usize, message: Message, length: usize) -> usize
    requires room { at + lib.ListN.length (body_bytes message.body (meant message []).reports length) ≤ lib.ListN.length out.old }
    requires count_le_most_players { is_input message.body ≡ true → message.reports.count ≤ most_players }
    ensures { BodyPut message length out.old at result out.new }
{
    match message.body {
        MessageBody::SyncRequest { random_request } => put_u32(out, at, random_request),
        MessageBody::SyncReply { random_reply } => put_u32(out, at, random_reply),
        MessageBody::Input {
            disconnect_requested,
            start_frame,
            ack_frame,
        } => {
            let next = put_statuses(out, at, message.reports);
            put_input(
                out,
                next,
                disconnect_requested,
                start_frame,
                ack_frame,
                length,
            )
        }
        MessageBody::InputAck { ack_frame } => put_frame(out, at, ack_frame),
        MessageBody::QualityReport {
            frame_advantage,
            ping,
        } => put_quality(out, at, frame_advantage, ping),
        MessageBody::QualityReply { pong } => put_wide(out, at, pong),
        MessageBody::ChecksumReport { checksum, frame } => put_checksum(out, at, checksum, frame),
        MessageBody::KeepAlive => at,
    }
}

#[tactic(auto, using(crate::proofs::Put::room_first, crate::proofs::Put::room_second), unfolding(crate::specs::Bytes::statuses_bytes))]
fn put_statuses(out: &mut [u8], at: usize, reports: StatusReports) -> usize
    requires room { at + length (statuses_bytes (report_list reports)) ≤ length out.old }
    requires count_le_most_players { reports.count ≤ most_players }
    ensures { StatusesPut reports out.old at result out.new }
{
    let next = put_u64(out, at, reports.count as u64);
    put_reports(out, next, reports)
}

// What stands between an Input's statuses and its payload.
#[tactic(auto, using(crate::proofs::Put::room_first, crate::proofs::Put::room_second), unfolding(crate::specs::Bytes::input_bytes))]
fn put_input(
    out: &mut [u8],
    at: usize,
    disconnect_requested: bool,
    start_frame: u32,
    ack_frame: u32,
    length: usize,
) -> usize
    requires { at + lib.ListN.length (input_bytes disconnect_requested start_frame ack_frame length) ≤ lib.ListN.length out.old }
    ensures { PutAs out.old at (input_bytes disconnect_requested start_frame ack_frame length) result out.new }
{
    let next = put_flag(out, at, disconnect_requested);
    let next = put_frame(out, next, start_frame);
    let next = put_frame(out, next, ack_frame);
    put_u64(out, next, length as u64)
}

#[tactic(auto, using(crate::proofs::Put::room_first, crate::proofs::Put::room_second), unfolding(crate::specs::Bytes::advantage_bytes))]
fn put_quality(out: &mut [u8], at: usize, frame_advantage: u16, ping: Wide) -> usize
    requires { at + length (advantage_bytes frame_advantage ++ wide_bytes ping) ≤ length out.old }
    ensures { PutAs out.old at (advantage_bytes frame_advantage ++ wide_bytes ping) result out.new }
{
    let next = put_u16(out, at, frame::advantage_bits_of(frame_advantage));
    put_wide(out, next, ping)
}

#[tactic(auto, using(crate::proofs::Put::room_first, crate::proofs::Put::room_second))]
fn put_checksum(out: &mut [u8], at: usize, checksum: Wide, frame: u32) -> usize
    requires { at + length (wide_bytes checksum ++ frame_bytes frame) ≤ length out.old }
    ensures { PutAs out.old at (wide_bytes checksum ++ frame_bytes frame) result out.new }
{
    let next = put_wide(out, at, checksum);
    put_frame(out, next, frame)
}

#[tactic(auto, using(base::proofs::Lay::laid_none), unfolding(crate::specs::Bytes::reports_bytes))]
fn put_reports(out: &mut [u8], at: usize, reports: StatusReports) -> usize
    requires room { at + length (reports_bytes (report_list reports)) ≤ length out.old }
    requires count_le_most_players { reports.count ≤ most_players }
    ensures { ReportsPut reports out.old at result out.new }
{
    let mut next = at;
    for report in &reports.list[..reports.count] {
        next = put_report(out, next, *report);
    }
    next
}

#[tactic(auto, using(crate::proofs::Put::room_first, crate::proofs::Put::room_second), unfolding(crate::specs::Bytes::report_bytes))]
fn put_report(out: &mut [u8], at: usize, report: StatusReport) -> usize
    requires { at + length (report_bytes report) ≤ length out.old }
    ensures { ReportPut report out.old at result out.new }
{
    let next = put_flag(out, at, report.disconnected);
    put_frame(out, next, report.last_frame)
}

#[tactic(auto, unfolding(crate::specs::Bytes::flag_bytes))]
fn put_flag(out: &mut [u8], at: usize, flag: bool) -> usize
    requires { at + length (flag_bytes flag) ≤ length out.old }
    ensures { PutAs out.old at (flag_bytes flag) result out.new }
{
    put(out, at, &[u8::from(flag)])
}

#[tactic(auto, unfolding(crate::specs::Bytes::frame_bytes))]
fn put_frame(out: &mut [u8], at: usize, frame: u32) -> usize
    requires { at + length (frame_bytes frame) ≤ length out.old }
    ensures { PutAs out.old at (frame_bytes frame) result out.new }
{
    put_u32(out, at, frame::bits_of(frame))
}

#[tactic(auto, using(crate::proofs::Put::room_first, crate::proofs::Put::room_second), unfolding(crate::specs::Bytes::wide_bytes))]
fn put_wide(out: &mut [u8], at: usize, wide: Wide) -> usize
    requires { at + length (wide_bytes wide) ≤ length out.old }
    ensures { PutAs out.old at (wide_bytes wide) result out.new }
{
    let next = put_u64(out, at, wide.low);
    put_u64(out, next, wide.high)
}

// One for each width: a trait over the widths would be no plainer, since each impl would hold this line.
#[tactic(auto, using(crate::proofs::Numbers::to_le_8))]
fn put_u64(out: &mut [u8], at: usize, n: u64) -> usize
    requires { at + length (le 8 n) ≤ length out.old }
    ensures { PutAs out.old at (le 8 n) result out.new }
{
    put(out, at, &n.to_le_bytes())
}

#[tactic(auto, using(crate::proofs::Numbers::to_le_4))]
fn put_u32(out: &mut [u8], at: usize, n: u32) -> usize
    requires { at + length (le 4 n) ≤ length out.old }
    ensures { PutAs out.old at (le 4 n) result out.new }
{
    put(out, at, &n.to_le_bytes())
}

#[tactic(auto, using(crate::proofs::Numbers::to_le_2))]
fn put_u16(out: &mut [u8], at: usize, n: u16) -> usize
    requires { at + length (le 2 n) ≤ length out.old }
    ensures { PutAs out.old at (le 2 n) result out.new }
{
    put(out, at, &n.to_le_bytes())
}

// Bytes at a place, and the place after them.
fn put(out: &mut [u8], at: usize, piece: &[u8]) -> usize
    requires { at + length piece.now ≤ length out.old }
    ensures { PutAs out.old at piece.now result out.new }
{
    let end = at + piece.len();
    out[at..end].copy_from_slice(piece);
    end
}
