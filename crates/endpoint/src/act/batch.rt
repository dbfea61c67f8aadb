// The messages of one act, written one after another where there is room for all of them.
// The buffer and the place in it are two parameters: the queue is the owner's, and the clauses are over the whole buffer and the place.
ghost use Rattle.std.specs.Prelude.{[], ◌∷◌};
ghost use Rattle.base.specs.Pick.{pick};
ghost use Rattle.status.specs.Statuses.{held_statuses};
ghost use Rattle.codec.specs.Read.{body_only};
ghost use Rattle.pending.specs.Pending.{waiting};
ghost use Rattle.endpoint.specs.Inside.Batch.{due_reports, SizedWith, WrittenWhere};

use crate::act::due::Due;
use codec::{FIXED_SIZES, MessageBody, Wide};
use pending::Pending;
use status::Statuses;

#[tactic(auto, using(crate::proofs::Laws::Act::Batch::written_none, crate::proofs::Laws::Act::Batch::written_one))]
fn body_only_if(due: bool, out: &mut [u8], at: usize, magic: u16, body: MessageBody) -> usize
    ensures { WrittenWhere out.old at (pick due (body_only magic body ∷ []) []) result out.new }
{
    if !due {
        return at;
    }
    outbox::body_only(out, at, magic, body).unwrap_or(at)
}

// The bytes that are due, whatever they are.
#[tactic(auto, using(status::proofs::Held::held_le, crate::proofs::Laws::Act::Batch::size_if, crate::proofs::Laws::Act::Batch::size_if_most, crate::proofs::Laws::Act::Batch::sizes_append, base::proofs::Arrays::unmap), unfolding(crate::specs::Inside::Batch::batch, crate::specs::Inside::Batch::due_reports))]
pub(crate) fn size(due: Due, statuses: Statuses, pending: &Pending, width: usize) -> usize
    ensures { SizedWith due (held_statuses statuses) (waiting pending.now) width result }
{
    usize::from(due.input) * outbox::input_size(statuses, pending, width)
        + usize::from(due.report) * FIXED_SIZES[4]
        + usize::from(due.keep_alive) * FIXED_SIZES[7]
}

// Quality report and keepalive, each where it is due; where the queue then ends.
#[tactic(auto, using(crate::proofs::Laws::Act::Batch::written_then), unfolding(crate::specs::Inside::Batch::due_reports))]
pub(crate) fn write_reports(
    due: Due,
    out: &mut [u8],
    at: usize,
    magic: u16,
    advantage: u32,
    epoch: u64,
) -> usize
    ensures { WrittenWhere out.old at (due_reports due magic advantage epoch) result out.new }
{
    let frame_advantage = quality::clamped(advantage);
    let reported = body_only_if(
        due.report,
        out,
        at,
        magic,
        MessageBody::QualityReport {
            frame_advantage,
            ping: Wide {
                low: epoch,
                high: 0,
            },
        },
    );
    body_only_if(due.keep_alive, out, reported, magic, MessageBody::KeepAlive)
}
