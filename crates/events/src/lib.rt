// The events that wait to be taken, oldest first. An event's input stands beside the event: an enum holds no bytes.
#![tactic(auto)]

ghost use Rattle.std.specs.Prelude.{◌≡◌, [], ◌∷◌, ◌++◌, ◌+◌, ◌<◌, ◌≤◌, length, get_or};
ghost use Rattle.ceilings.specs.Ceilings.{most_events};
ghost use Rattle.packing.specs.Packing.{frames_of};
ghost use Rattle.events.specs.Events.{held_events, has_room, input_entry, announced, announced_all, packet_fits, blank_entry, given, ahead, PushedAs};

use answer::{Answer, Refusal};
use ceilings::{MOST_EVENTS, MOST_INPUT_SIZE, MOST_WIDTH};
use fixed_vec::FixedVec;

#[derive(Clone, Copy, Debug, PartialEq, Eq)]
pub enum Event {
    Synchronizing { total: u32, count: u32 },
    Synchronized,
    Input { frame: u32, player: u32 },
    Disconnected,
    NetworkInterrupted { disconnect_timeout: u64 },
    NetworkResumed,
}

// An event with its input, zeros past the input's size; all zeros beside any event but Input.
#[derive(Clone, Copy, Debug, PartialEq, Eq)]
pub struct Entry {
    pub event: Event,
    pub input: [u8; MOST_INPUT_SIZE],
}

// The input beside any event but Input.
pub const NO_INPUT: [u8; MOST_INPUT_SIZE] = [0; MOST_INPUT_SIZE];

// The events that have neither numbers nor an input.
pub const SYNCHRONIZED: Entry = Entry {
    event: Event::Synchronized,
    input: NO_INPUT,
};

pub const DISCONNECTED: Entry = Entry {
    event: Event::Disconnected,
    input: NO_INPUT,
};

pub const NETWORK_RESUMED: Entry = Entry {
    event: Event::NetworkResumed,
    input: NO_INPUT,
};

#[derive(Clone, Copy)]
pub struct Events {
    pub entries: FixedVec<Entry, MOST_EVENTS>,
}

// What an Input may announce ahead of its inputs.
#[derive(Clone, Copy, Debug, PartialEq, Eq)]
pub struct Notices {
    pub resumed: bool,
    pub disconnected: bool,
}

// The frames of a packet: `count` of `width` bytes each, the first of them `first`.
#[derive(Clone, Copy, Debug, PartialEq, Eq)]
pub struct Frames {
    pub first: u32,
    pub count: u32,
    pub width: usize,
}

// One player's input of a frame.
#[tactic(auto, unfolding(crate::specs::Events::input_of, crate::specs::Events::input_entry))]
fn input_entry(frame: u32, player: u32, bytes: &[u8]) -> Entry
    ensures { result ≡ input_entry frame player bytes.now }
{
    let mut input = NO_INPUT;
    let n = bytes.len().min(MOST_INPUT_SIZE);
    input[..n].copy_from_slice(&bytes[..n]);
    Entry {
        event: Event::Input { frame, player },
        input,
    }
}

impl Events {
    // The list is written out: to take it from `FixedVec::new` is to copy it.
    #[tactic(auto, unfolding(crate::specs::Events::held_events, fixed_vec::specs::FixedVec::held))]
    pub fn new() -> Events
        ensures { held_events result ≡ [] }
    {
        Events {
            entries: FixedVec {
                list: [SYNCHRONIZED; MOST_EVENTS],
                count: 0,
            },
        }
    }

    #[tactic(auto, unfolding(crate::specs::Events::held_events))]
    pub fn count(&self) -> usize
        ensures { result ≡ length (held_events self.now) }
    {
        self.entries.len()
    }

    // The i-th, or Synchronized with no input.
    #[tactic(auto, unfolding(crate::specs::Events::blank_entry, crate::specs::Events::held_events))]
    pub fn entry(&self, i: usize) -> Entry
        ensures { result ≡ get_or (held_events self.now) i blank_entry }
    {
        self.entries.get(i).unwrap_or(SYNCHRONIZED)
    }

    // Whether there is room for n more.
    #[tactic(auto, unfolding(crate::specs::Events::has_room))]
    fn has_room(&self, n: usize) -> bool
        ensures { result ≡ has_room (held_events self.now) n }
    {
        self.count().saturating_add(n) <= MOST_EVENTS
    }

    // One more at the end, for which there is room.
    #[tactic(auto, unfolding(crate::specs::Events::held_events))]
    fn append(&mut self, entry: Entry)
        requires { length (held_events self.old) < most_events }
        ensures { held_events self.new ≡ held_events self.old ++ entry ∷ [] }
    {
        self.entries.push(entry).unwrap()
    }

    // One more at the end; where there is no room, unchanged.
    #[tactic(auto, unfolding(crate::specs::Events::has_room, crate::specs::Events::held_events))]
    pub fn push(&mut self, entry: Entry) -> Answer
        ensures { PushedAs self.old (has_room (held_events self.old) 1) (entry ∷ []) result self.new }
    {
        self.entries.push(entry).map_err(|_| Refusal::Full)
    }

    // Those of two that are given, in their order. There is room for all.
    fn append_both(&mut self, first: Option<Entry>, second: Option<Entry>)
        requires { length (held_events self.old) + length (given first ++ given second) ≤ most_events }
        ensures { held_events self.new ≡ held_events self.old ++ (given first ++ given second) }
    {
        if let Some(entry) = first {
            self.append(entry);
        }
        if let Some(entry) = second {
            self.append(entry);
        }
    }

    // Those of two that are given, in their order; where there is no room for all, unchanged.
    #[tactic(auto, unfolding(crate::specs::Events::has_room))]
    pub fn push_both(&mut self, first: Option<Entry>, second: Option<Entry>) -> Answer
        ensures { PushedAs self.old (has_room (held_events self.old) (length (given first ++ given second))) (given first ++ given second) result self.new }
    {
        if !self.has_room(usize::from(first.is_some()) + usize::from(second.is_some())) {
            return Err(Refusal::Full);
        }
        self.append_both(first, second);
        Ok(())
    }

    // One frame, once per handle in their order, each with the next `size` of the frame's bytes. There is room for all.
    #[tactic(auto, unfolding(crate::specs::Events::announced))]
    fn announce(&mut self, frame: u32, bytes: &[u8], handles: &[u32], size: usize)
        requires { length (held_events self.old) + length handles.now ≤ most_events }
        ensures { held_events self.new ≡ held_events self.old ++ announced frame size bytes.now handles.now }
    {
        let mut rest = bytes;
        for handle in handles {
            let (input, others) = rest.split_at(size.min(rest.len()));
            self.append(input_entry(frame, *handle, input));
            rest = others;
        }
    }

    // Whether there is room for a packet's events, and its frames' numbers are frames.
    #[tactic(auto, unfolding(crate::specs::Events::has_room, crate::specs::Events::packet_fits, crate::specs::Events::ahead, crate::specs::Events::both))]
    fn packet_fits(&self, notices: Notices, first: u32, count: u32, handles: &[u32]) -> bool
        ensures { result ≡ packet_fits (held_events self.now ++ ahead notices.resumed notices.disconnected) first count handles.now }
    {
        let ahead = usize::from(notices.resumed) + usize::from(notices.disconnected);
        let inputs = (count as usize).saturating_mul(handles.len());
        u64::from(first) + u64::from(count) <= numbers::WORD
            && self.has_room(inputs.saturating_add(ahead))
    }

    // What an Input announces: the end of an interruption, a disconnect, and the packet's Input events, frame by frame, in each one per handle. The frames
    // stand one behind the other in the payload, each XOR the reference. Where there is no room for all, or a number would be no frame, unchanged.
    #[tactic(auto, using(crate::proofs::Laws::packet_room), unfolding(crate::specs::Events::ahead, crate::specs::Events::both, crate::specs::Events::has_room, crate::specs::Events::packet_fits))]
    pub fn push_packet(
        &mut self,
        notices: Notices,
        frames: Frames,
        payload: &[u8],
        reference: &[u8; MOST_WIDTH],
        handles: &[u32],
        size: usize,
    ) -> Answer
        ensures { PushedAs self.old (packet_fits (held_events self.old ++ ahead notices.resumed notices.disconnected) frames.first frames.count handles.now)
            (ahead notices.resumed notices.disconnected ++ announced_all frames.first size handles.now (frames_of frames.width reference.now frames.count payload.now)) result self.new }
    {
        if !self.packet_fits(notices, frames.first, frames.count, handles) {
            return Err(Refusal::Full);
        }
        self.append_both(
            notices.resumed.then_some(NETWORK_RESUMED),
            notices.disconnected.then_some(DISCONNECTED),
        );
        let mut rest = payload;
        for k in 0..frames.count {
            let bytes = packing::frame_at(rest, 0, frames.width, reference);
            self.announce(frames.first + k, &bytes, handles, size);
            rest = rest.split_at(frames.width.min(rest.len())).1;
        }
        Ok(())
    }
}
