// The inputs sent and not yet acknowledged, oldest first: at most 129.
#![tactic(auto)]

ghost use Rattle.std.specs.Prelude.{◌≡◌, [], leb, length, take_while};
ghost use Rattle.packing.specs.Packing.{PlacedAs};
ghost use Rattle.pending.specs.Pending.{waiting, drops, first_frame, last_frame, payload, PushedAs, SizedAs, DroppedAs};

use answer::{Answer, Refusal};
use ceilings::{MOST_PENDING, MOST_WIDTH};
use fixed_vec::FixedVec;
use packing::InputBytes;

#[derive(Clone, Copy)]
pub struct Pending {
    pub inputs: FixedVec<InputBytes, MOST_PENDING>,
}

impl Pending {
    // The list is written out: to take it from `FixedVec::new` is to copy it.
    #[tactic(auto, unfolding(crate::specs::Pending::waiting, fixed_vec::specs::FixedVec::held))]
    pub fn new() -> Pending
        ensures { waiting result ≡ [] }
    {
        let blank = InputBytes {
            frame: 0,
            bytes: [0; MOST_WIDTH],
        };
        Pending {
            inputs: FixedVec {
                list: [blank; MOST_PENDING],
                count: 0,
            },
        }
    }

    #[tactic(auto, unfolding(crate::specs::Pending::waiting))]
    pub fn count(&self) -> usize
        ensures { result ≡ length (waiting self.now) }
    {
        self.inputs.len()
    }

    // The frame of the oldest input, or the one given where there is none.
    #[tactic(auto, using(crate::proofs::Laws::first_some, crate::proofs::Laws::first_none), unfolding(crate::specs::Pending::waiting))]
    pub fn first_frame(&self, none: u32) -> u32
        ensures { result ≡ first_frame none (waiting self.now) }
    {
        self.inputs.first().map_or(none, |x| x.frame)
    }

    // The frame of the newest input, or the one given where there is none.
    #[tactic(auto, using(crate::proofs::Laws::last_some, crate::proofs::Laws::last_none), unfolding(crate::specs::Pending::waiting))]
    pub fn last_frame(&self, none: u32) -> u32
        ensures { result ≡ last_frame none (waiting self.now) }
    {
        self.inputs.last().map_or(none, |x| x.frame)
    }

    // One more at the end; where it is full, refused and unchanged.
    #[tactic(auto, unfolding(crate::specs::Pending::pushed, crate::specs::Pending::room, crate::specs::Pending::waiting))]
    pub fn push(&mut self, input: InputBytes) -> Answer
        ensures { PushedAs self.old input result self.new }
    {
        self.inputs.push(input).map_err(|_| Refusal::Full)
    }

    // Whether a drop to ack changes anything: the oldest input has a frame of at most ack.
    #[tactic(auto, using(crate::proofs::Laws::drops_some, crate::proofs::Laws::drops_none), unfolding(crate::specs::Pending::waiting))]
    pub fn drops(&self, ack: u32) -> bool
        ensures { result ≡ drops ack (waiting self.now) }
    {
        self.inputs.first().is_some_and(|x| x.frame <= ack)
    }

    // How many of the oldest have a frame of at most ack.
    #[tactic(auto, unfolding(crate::specs::Pending::waiting))]
    fn leading(&self, ack: u32) -> usize
        ensures { result ≡ length (take_while (λ x. leb x.frame ack) (waiting self.now)) }
    {
        let inputs = self.inputs.as_slice();
        inputs.iter().take_while(|x| x.frame <= ack).count()
    }

    // Drops the leading inputs with a frame of at most ack. The last dropped is the new reference; where none is dropped, the old one stays.
    #[tactic(auto, unfolding(crate::specs::Pending::waiting))]
    pub fn drop_to(&mut self, ack: u32, reference: InputBytes) -> InputBytes
        ensures { DroppedAs self.old ack reference result self.new }
    {
        let n = self.leading(ack);
        let last = self.inputs.as_slice()[..n].last().copied();
        self.inputs.remove_front(n);
        last.unwrap_or(reference)
    }

    // The bytes of all inputs packed; a frame has at most the 64 of its array. That length is asked of a place of the store: by a read behind a reference
    // the proof learns that every input held has its 64 bytes.
    pub fn payload_size(&self, width: usize) -> usize
        ensures { SizedAs self.now width result }
    {
        let most = self.inputs.list[0].bytes.len();
        self.count() * width.min(most)
    }

    // Packs all inputs against the reference straight into a lent buffer; where they do not fit, nothing is written.
    // The buffer and the place in it are two parameters, as `PlacedAs` has them.
    pub fn pack_all(&self, out: &mut [u8], at: usize, width: usize, reference: &InputBytes) -> bool
        ensures { PlacedAs out.old at (payload width reference.now (waiting self.now)) result out.new }
    {
        let size = self.payload_size(width);
        if out.len() < at || out.len() - at < size {
            return false;
        }
        let w = packing::frame_width(width);
        let mut place = at;
        for x in self.inputs.as_slice() {
            packing::pack_frame(out, place, &x.bytes, width, &reference.bytes);
            place += w;
        }
        true
    }
}
