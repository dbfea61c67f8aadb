// The inputs received, kept as references for the packets to come: at most 33, since none is kept below newest - 2 max_prediction.
#![tactic(auto)]

ghost use Rattle.std.specs.Prelude.{◌≡◌, [], ◌∷◌, ◌++◌, ◌-◌, ◌*◌, ◌≤◌, ◌^◌, eqb, find, fold, max, min, length, take};
ghost use Rattle.base.specs.Keyed.{kept};
ghost use Rattle.ceilings.specs.Ceilings.{most_received};
ghost use Rattle.packing.specs.Packing.{frame_count, frames_of};
ghost use Rattle.history.specs.History.{received, blank_frame, newest_of, reference_by, looked_at, newest_after, stays, new_and_kept, numbered, packet_of, taken_above};

use ceilings::{MOST_RECEIVED, MOST_WIDTH};
use fixed_vec::{FixedVec, Test};
use frame::{FRAMES, NULL_FRAME};
use packing::InputBytes;

// The blank frame -1: what the first packet is packed against.
pub const BLANK: InputBytes = InputBytes {
    frame: NULL_FRAME,
    bytes: [0; MOST_WIDTH],
};

#[derive(Clone, Copy)]
pub struct History {
    pub inputs: FixedVec<InputBytes, MOST_RECEIVED>,
}

// The newest frame, and the input that a packet is packed against, if it is held.
#[derive(Clone, Copy)]
pub struct Looked {
    pub newest: u32,
    pub reference: Option<InputBytes>,
}

// What a packet says of its payload: the frame that it starts at, the width of its inputs, and the input that they are packed against.
#[derive(Clone, Copy)]
pub struct Packet {
    pub start: u32,
    pub width: usize,
    pub reference: InputBytes,
}

// The keep line, newest - 2 max_prediction.
#[derive(Clone, Copy)]
struct KeepLine {
    newest: u32,
    max_prediction: u32,
}

impl Test<InputBytes> for KeepLine {
    ghost use Rattle.history.specs.History.{stays};

    ghost passes = { λ l x. stays l.newest l.max_prediction x.frame };

    fn passes(&self, x: &InputBytes) -> bool {
        self.stays_above(x.frame)
    }
}

impl KeepLine {
    // Whether a frame is at or above the line. Written as a sum: a difference could fall below the least frame.
    fn stays_above(&self, frame: u32) -> bool
        ensures { result ≡ stays self.now.newest self.now.max_prediction frame }
    {
        u64::from(self.newest) <= u64::from(frame) + 2 * u64::from(self.max_prediction)
    }

    // Whether a packet's frame is above the newest known before, and stays.
    fn takes(&self, frame: u32, known: u32) -> bool
        ensures { result ≡ new_and_kept known self.now.newest self.now.max_prediction frame }
    {
        known < frame && self.stays_above(frame)
    }
}

// While nothing is received, the blank frame; else the one before the packet.
fn reference_frame(newest: u32, start: u32) -> u32
    ensures { result ≡ reference_by newest start }
{
    if newest == NULL_FRAME {
        return NULL_FRAME;
    }
    start.saturating_sub(1)
}

// How many frames of a payload get a number: all, but none above the largest frame.
fn arriving(length: usize, width: usize, start: u32) -> usize
    ensures { result ≡ min (2 ^ 32 - start) (frame_count width length) }
{
    packing::frame_count(length, width).min(FRAMES - start as usize)
}

// The newest frame once count frames from start on are in.
#[tactic(auto, unfolding(crate::specs::History::newest_after))]
fn after(newest: u32, start: u32, count: usize) -> u32
    requires { count ≤ 2 ^ 32 - start }
    ensures { result ≡ newest_after newest start count }
{
    if count == 0 {
        return newest;
    }
    newest.max(start + (count - 1) as u32)
}

// The highest frame of some inputs, 0 where there are none.
fn highest(inputs: &[InputBytes]) -> u32
    ensures { result ≡ fold (λ most x. max x.frame most) 0 inputs.now }
{
    inputs.iter().fold(0, |most, x| x.frame.max(most))
}

// The input of a frame, if it is among them.
fn with_frame(inputs: &[InputBytes], frame: u32) -> Option<InputBytes>
    ensures { result ≡ find (λ x. eqb x.frame frame) inputs.now }
{
    inputs.iter().copied().find(|x| x.frame == frame)
}

impl History {
    // Holds the blank frame alone. The list is written out: to take it from `FixedVec::new` is to copy it.
    #[tactic(auto, unfolding(crate::specs::History::blank_frame, crate::specs::History::received, fixed_vec::specs::FixedVec::held, packing::specs::Pad::zeros))]
    pub fn new() -> History
        ensures { received result ≡ blank_frame ∷ [] }
    {
        History {
            inputs: FixedVec {
                list: [BLANK; MOST_RECEIVED],
                count: 1,
            },
        }
    }

    // How many inputs are held.
    #[tactic(auto, unfolding(crate::specs::History::received))]
    pub fn count(&self) -> usize
        ensures { result ≡ length (received self.now) }
    {
        self.inputs.len()
    }

    // The newest frame, searched; -1 where nothing is held.
    #[tactic(auto, using(crate::proofs::Laws::newest_none, crate::proofs::Laws::newest_fold), unfolding(crate::specs::History::received))]
    pub fn newest(&self) -> u32
        ensures { result ≡ newest_of (received self.now) }
    {
        if self.count() == 0 {
            return NULL_FRAME;
        }
        highest(self.inputs.as_slice())
    }

    // The newest frame, and the input that a packet from `start` on is packed against, if it is held: while nothing is received the blank one, else the
    // one before it.
    #[tactic(auto, using(crate::proofs::Laws::looked_is), unfolding(crate::specs::History::received))]
    pub fn look(&self, start: u32) -> Looked
        ensures { result ≡ looked_at start (received self.now) }
    {
        let newest = self.newest();
        let reference = with_frame(self.inputs.as_slice(), reference_frame(newest, start));
        Looked { newest, reference }
    }

    // Appends those of the first count frames of a payload that are new and stay, as many as fit.
    fn append(
        &mut self,
        payload: &[u8],
        packet: &Packet,
        count: usize,
        newest: u32,
        line: &KeepLine,
    )
        requires { (count ≤ 2 ^ 32 - packet.now.start) × (count * packet.now.width ≤ length payload.now) × (length (received self.old) ≤ most_received) }
        ensures { received self.new ≡ take most_received (received self.old ++ kept (λ x. new_and_kept newest line.now.newest line.now.max_prediction x.frame) (numbered packet.now.start (frames_of packet.now.width packet.now.reference.bytes count payload.now))) }
    {
        let mut place = 0;
        for k in 0..count {
            // The payload may be long, so it is not read on where no more fits.
            if MOST_RECEIVED <= self.count() {
                return;
            }
            let frame = packet.start + k as u32;
            if line.takes(frame, newest) {
                let bytes = packing::frame_at(
                    payload,
                    place,
                    packet.width,
                    &packet.reference.bytes,
                );
                let _ = self.inputs.push(InputBytes { frame, bytes });
            }
            place += packet.width;
        }
    }

    // Takes in a packet's frames above the newest, which the caller knows, and drops those below the new keep line. What would be dropped at once is
    // never stored.
    pub fn take_in(&mut self, payload: &[u8], packet: &Packet, newest: u32, max_prediction: u32)
        ensures { received self.new ≡ take most_received (taken_above newest max_prediction (received self.old) (packet_of packet.now.start packet.now.width packet.now.reference.bytes payload.now)) }
    {
        let count = arriving(payload.len(), packet.width, packet.start);
        let line = KeepLine {
            newest: after(newest, packet.start, count),
            max_prediction,
        };
        self.inputs.retain(&line);
        self.append(payload, packet, count, newest, &line);
    }
}
