// The packet of an Input: the reference that it is packed against, whether it can be read, and its frames that are news.
ghost use Rattle.std.specs.Prelude.{◌≡◌, true, ◌&&◌, ◌++◌, length, suc, ◌+◌, ◌-◌, ◌^◌, ◌<◌, ◌≤◌, min, ltb};
ghost use Rattle.base.specs.Pick.{pick};
ghost use Rattle.ceilings.specs.Ceilings.{most_events};
ghost use Rattle.timers.specs.Timers.{input_at, sent_at};
ghost use Rattle.packing.specs.Packing.{frame_count, frames_of, decodable_length};
ghost use Rattle.pending.specs.Pending.{DroppedAs};
ghost use Rattle.events.specs.Events.{held_events, ahead, announced_all, packet_fits, PushedAs};
ghost use Rattle.setup.specs.Setup.{terms_of, receiving_width};
ghost use Rattle.endpoint_rules.specs.Receiving.{discarded_by, too_long_by, overflows_by};
ghost use Rattle.endpoint_rules.specs.Room.{buffer_full};
ghost use Rattle.endpoint.specs.Inside.Admission.{WeighedAs};
ghost use Rattle.endpoint.specs.Inside.Packet.{NewsIf, OpenedAs};

use crate::message::admission;
use crate::message::body::InputHead;
use crate::room;
use answer::Answer;
use ceilings::{MOST_PENDING, MOST_WIDTH};
use codec::FIXED_SIZES;
use events::{Events, Frames, Notices};
use frame::{BIAS32, FRAMES};
use history::History;
use packing::InputBytes;
use pending::Pending;
use setup::Setup;
use timers::Clocks;

// A packet that is looked into, and nothing done yet: the reference, where it is held, and what is found of it.
#[derive(Clone, Copy)]
pub struct Opened {
    pub reference: Option<InputBytes>,
    pub newest: u32,
    pub discarded: bool,
    pub too_long: bool,
    pub readable: bool,
    pub overflows: bool,
}

// The frames above the newest: the first of them, how many, and where they stand in the payload.
#[derive(Clone, Copy)]
pub struct News {
    pub first: u32,
    pub count: u32,
    pub at: usize,
}

// Without a request to disconnect the statuses must be those of all players; a first frame is never negative.
fn is_discarded(disconnect_requested: bool, count: usize, players: u32, start_frame: u32) -> bool
    ensures { result ≡ discarded_by disconnect_requested count players start_frame }
{
    (!disconnect_requested && count != players as usize) || start_frame < BIAS32
}

// Whether a payload has more frames than may be pending at the other end.
#[tactic(auto, using(base::proofs::Arrays::view_le), unfolding(setup::specs::Setup::terms_with))]
fn is_too_long(setup: Setup, length: usize) -> bool
    ensures { result ≡ too_long_by (receiving_width (terms_of setup)) length }
{
    MOST_PENDING * setup.receiving_width() < length
}

// Whether inputs can be read: their reference is held, and they are whole frames.
fn is_readable(held: bool, length: usize, width: usize) -> bool
    ensures { result ≡ (held && decodable_length width length) }
{
    held && packing::decodable(length, width)
}

// Whether the last of some frames would have no number.
fn overflows(start_frame: u32, count: usize) -> bool
    ensures { result ≡ overflows_by start_frame count }
{
    FRAMES - (start_frame as usize) < count
}

#[tactic(auto, unfolding(history::specs::History::looked_at))]
pub(crate) fn open(
    history: &History,
    setup: Setup,
    head: InputHead,
    count: usize,
    length: usize,
) -> Opened
    ensures { OpenedAs history.now setup head.disconnect_requested head.start_frame count length result }
{
    let width = setup.receiving_width();
    let looked = history.look(head.start_frame);
    Opened {
        reference: looked.reference,
        newest: looked.newest,
        discarded: is_discarded(
            head.disconnect_requested,
            count,
            setup.num_players,
            head.start_frame,
        ),
        too_long: is_too_long(setup, length),
        readable: is_readable(looked.reference.is_some(), length, width),
        overflows: overflows(head.start_frame, packing::frame_count(length, width)),
    }
}

// How many of a packet's frames are not above the newest.
fn known(newest: u32, start_frame: u32, count: u32) -> u32
    ensures { result ≡ min (suc newest - start_frame) count }
{
    if newest < start_frame {
        return 0;
    }
    count.min((newest - start_frame).saturating_add(1))
}

// The first of those above; where there are none, any frame does.
fn first_new(start_frame: u32, skip: u32, count: u32) -> u32
    requires { start_frame + skip + count ≤ 2 ^ 32 }
    ensures { result ≡ pick (ltb 0 count) (start_frame + skip) start_frame }
{
    if 0 < count {
        return start_frame + skip;
    }
    start_frame
}

// None of inputs that cannot be read.
pub(crate) fn news_of(
    readable: bool,
    newest: u32,
    start_frame: u32,
    length: usize,
    width: usize,
) -> News
    requires { readable ≡ true → (0 < start_frame) × (start_frame + frame_count width length ≤ 2 ^ 32) }
    ensures { NewsIf readable newest start_frame width length result }
{
    if !readable {
        return News {
            first: 0,
            count: 0,
            at: 0,
        };
    }
    let count = packing::frame_count(length, width);
    let skip = known(newest, start_frame, count as u32);
    let more = count as u32 - skip;
    News {
        first: first_new(start_frame, skip, more),
        count: more,
        at: skip as usize * width,
    }
}

// What refuses a packet before its inputs are announced: the InputAck of one that can be read must fit.
pub(crate) fn admit(opened: Opened, len: usize, queued: usize) -> Answer
    ensures { WeighedAs opened.too_long (opened.readable && opened.overflows) (buffer_full len queued (pick opened.readable 10 0)) result }
{
    let size = if opened.readable { FIXED_SIZES[3] } else { 0 };
    let full = room::buffer_full(len, queued, size);
    admission::weigh(opened.too_long, opened.readable && opened.overflows, full)
}

// What an Input announces, all of it or nothing: where there is nothing to announce, the store is left alone. Inlined, so that it is not passed on for that.
#[inline(always)]
pub(crate) fn announce(
    events: &mut Events,
    notices: Notices,
    frames: Frames,
    payload: &[u8],
    reference: &[u8; MOST_WIDTH],
    handles: &[u32],
    size: usize,
) -> Answer
    requires { length events.old.entries.list ≡ most_events }
    ensures { PushedAs events.old (packet_fits (held_events events.old ++ ahead notices.resumed notices.disconnected) frames.first frames.count handles.now) (ahead notices.resumed notices.disconnected ++ announced_all frames.first size handles.now (frames_of frames.width reference.now frames.count payload.now)) result events.new }
{
    if !notices.resumed && !notices.disconnected && frames.count == 0 {
        return Ok(());
    }
    events.push_packet(notices, frames, payload, reference, handles, size)
}

// The pending inputs that an Input acknowledges go; where it acknowledges none, they are left alone. Gives the last one that was acknowledged. Inlined, as
// `announce` is.
#[inline(always)]
pub(crate) fn acknowledge(pending: &mut Pending, ack_frame: u32, acked: InputBytes) -> InputBytes
    ensures { DroppedAs pending.old ack_frame acked result pending.new }
{
    if pending.drops(ack_frame) {
        return pending.drop_to(ack_frame, acked);
    }
    acked
}

// The input time is noted where the reference is held, and the send time of the InputAck.
pub(crate) fn noted(clocks: Clocks, held: bool, readable: bool, now: u64) -> Clocks
    ensures { result ≡ pick readable (sent_at now (input_at now clocks)) (pick held (input_at now clocks) clocks) }
{
    if readable {
        return clocks.input_received(now).sent(now);
    }
    if held {
        return clocks.input_received(now);
    }
    clocks
}
