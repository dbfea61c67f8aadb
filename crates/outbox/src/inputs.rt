// All pending inputs as one Input, its payload packed straight into the queue.
// The buffer and the place in it are two parameters: the queue is the owner's, and the clauses (`QueuedAs`) are over the whole buffer and the place.
ghost use Rattle.std.specs.Prelude.{◌≡◌, ◌+◌, ◌*◌, length};
ghost use Rattle.status.specs.Statuses.{held_statuses};
ghost use Rattle.pending.specs.Pending.{waiting};
ghost use Rattle.outbox.specs.Outbox.{QueuedAs, StatusReportsAs, InputSizedAs, pending_input};

use answer::Refusal;
use codec::{FIXED_SIZES, Message, MessageBody, STATUS_SIZE, StatusReport, StatusReports};
use packing::InputBytes;
use pending::Pending;
use status::Statuses;

// The statuses as they travel: never more than a message may have.
#[tactic(auto, using(base::proofs::Arrays::copy_turn, status::proofs::Held::held_le, base::proofs::Arrays::unmap), unfolding(crate::specs::Outbox::report_of))]
fn reports_of(statuses: Statuses) -> StatusReports
    ensures { StatusReportsAs (held_statuses statuses) result }
{
    let mut reports = codec::no_reports();
    for i in 0..statuses.count() {
        let status = statuses.get(i);
        reports.list[i] = StatusReport {
            disconnected: status.disconnected,
            last_frame: status.last_frame,
        };
    }
    reports.count = statuses.count();
    reports
}

// Only a running endpoint sends inputs, so none requests a disconnect.
pub fn pending_input(
    out: &mut [u8],
    at: usize,
    magic: u16,
    ack: u32,
    statuses: Statuses,
    pending: &Pending,
    width: usize,
    acked: InputBytes,
) -> Result<usize, Refusal>
    ensures { QueuedAs out.old at (pending_input magic ack (held_statuses statuses) (waiting pending.now) width acked) result out.new }
{
    let message = Message {
        magic,
        body: MessageBody::Input {
            disconnect_requested: false,
            start_frame: pending.first_frame(frame::NULL_FRAME),
            ack_frame: ack,
        },
        reports: reports_of(statuses),
    };
    let size = pending.payload_size(width);
    let end = codec::write_head(out, at, message, size)?;
    pending.pack_all(out, end, width, &acked);
    Ok(end + size)
}

// The bytes that it takes, for a caller that must know that several messages fit before it writes
// any.
#[tactic(auto, using(status::proofs::Held::held_le, base::proofs::Arrays::unmap), unfolding(crate::specs::Outbox::pending_input))]
pub fn input_size(statuses: Statuses, pending: &Pending, width: usize) -> usize
    ensures { InputSizedAs (held_statuses statuses) (waiting pending.now) width result }
{
    FIXED_SIZES[2] + STATUS_SIZE * statuses.count() + pending.payload_size(width)
}
