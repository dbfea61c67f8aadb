// The frames that a session advances, each with one input per player.
ghost use Rattle.std.specs.Prelude.{◌≡◌, [], ◌+◌, ◌^◌, ◌≤◌, length, get_or};
ghost use Rattle.answer.specs.Number.{number_of};
ghost use Rattle.ceilings.specs.Ceilings.{most_advanced, most_players};
ghost use Rattle.status.specs.Statuses.{held_statuses};
ghost use Rattle.spectator.specs.Stores.{inputs_of, request_of, request_frames, RequestAs, RequestsAs, blank_synced};
ghost use Rattle.spectator_rules.specs.Advance.{synced_of, synced_by, frame_inputs_by, requests_by, frame_refusal_by, frames_refusal_by};

use crate::Inputs;
use answer::{Answer, Refusal};
use ceilings::{MOST_ADVANCED, MOST_INPUT_SIZE, MOST_PLAYERS};
use fixed_vec::FixedVec;
use spectator_rules::{InputStatus, PlayerInput, SyncedInput};
use status::{ConnectionStatus, Statuses};

// One frame.
#[derive(Clone, Copy)]
pub struct Request {
    pub inputs: FixedVec<SyncedInput, MOST_PLAYERS>,
}

#[derive(Clone, Copy)]
pub struct Requests {
    pub frames: FixedVec<Request, MOST_ADVANCED>,
}

// What stands in the place of no player.
const BLANK_SYNCED: SyncedInput = SyncedInput {
    input: [0; MOST_INPUT_SIZE],
    status: InputStatus::Confirmed,
};

// A player that the host reported as disconnected before the frame is so in it.
fn synced(input: PlayerInput, status: ConnectionStatus, frame: u32) -> SyncedInput
    ensures { result ≡ synced_of frame input status }
{
    let gone = status.disconnected && status.last_frame < frame;
    SyncedInput {
        input: input.input,
        status: if gone {
            InputStatus::Disconnected
        } else {
            InputStatus::Confirmed
        },
    }
}

impl Inputs {
    fn synced_at(&self, statuses: &Statuses, slots: u32, frame: u32, player: u32) -> SyncedInput
        ensures { result ≡ synced_by slots frame player (inputs_of self.now) (held_statuses statuses.now) }
    {
        synced(
            self.at(slots, frame, player),
            statuses.get(player as usize),
            frame,
        )
    }

    #[tactic(auto, using(crate::proofs::Laws::Requests::players_counted), unfolding(spectator_rules::specs::Advance::frame_inputs_by, crate::specs::Stores::request_of, fixed_vec::specs::FixedVec::held))]
    fn request_at(&self, statuses: &Statuses, slots: u32, frame: u32, players: usize) -> Request
        requires { players ≤ most_players }
        ensures { RequestAs (frame_inputs_by slots frame players (inputs_of self.now) (held_statuses statuses.now)) result }
    {
        let list = [
            self.synced_at(statuses, slots, frame, 0),
            self.synced_at(statuses, slots, frame, 1),
            self.synced_at(statuses, slots, frame, 2),
            self.synced_at(statuses, slots, frame, 3),
        ];
        Request {
            inputs: FixedVec {
                list,
                count: players,
            },
        }
    }

    // 16 where its slot holds an earlier frame (it is not received yet), 17 where it holds a later one (it is gone).
    fn frame_refusal(&self, slots: u32, frame: u32) -> Answer
        ensures { number_of result ≡ frame_refusal_by slots frame (inputs_of self.now) }
    {
        let held = self.at(slots, frame, 0).frame;
        if held < frame {
            return Err(Refusal::PredictionThreshold);
        }
        if frame < held {
            return Err(Refusal::SpectatorTooFarBehind);
        }
        Ok(())
    }

    // Of n frames, the refusal of the first that is not there.
    pub(crate) fn frames_refusal(&self, slots: u32, frame: u32, n: u32) -> Answer
        requires { frame + n ≤ 2 ^ 32 }
        ensures { number_of result ≡ frames_refusal_by slots n frame (inputs_of self.now) }
    {
        for k in 0..n {
            self.frame_refusal(slots, frame + k)?;
        }
        Ok(())
    }

    #[tactic(auto, using(crate::proofs::Laws::Requests::frames_counted), unfolding(crate::specs::Stores::request_counts, crate::specs::Stores::request_frames, spectator_rules::specs::Advance::requests_by, fixed_vec::specs::FixedVec::held))]
    pub(crate) fn requests_from(
        &self,
        statuses: &Statuses,
        slots: u32,
        players: usize,
        frame: u32,
        n: u32,
    ) -> Requests
        requires { (frame + n ≤ 2 ^ 32) × (n ≤ most_advanced) × (players ≤ most_players) }
        ensures { RequestsAs (requests_by slots n frame players (inputs_of self.now) (held_statuses statuses.now)) result }
    {
        let mut requests = Requests::none();
        for k in 0..n {
            let _ = requests
                .frames
                .push(self.request_at(statuses, slots, frame + k, players));
        }
        requests.frames.count = requests.frames.len();
        requests
    }
}

impl Request {
    #[tactic(auto, unfolding(crate::specs::Stores::request_of, fixed_vec::specs::FixedVec::held))]
    fn none() -> Request
        ensures { RequestAs [] result }
    {
        Request {
            inputs: FixedVec {
                list: [BLANK_SYNCED; MOST_PLAYERS],
                count: 0,
            },
        }
    }

    // How many players the frame is of.
    #[tactic(auto, using(base::proofs::Arrays::unmap), unfolding(crate::specs::Stores::request_of, fixed_vec::specs::FixedVec::held))]
    pub fn count(&self) -> usize
        ensures { result ≡ length (request_of self.now) }
    {
        self.inputs.len()
    }

    // What the player does in this frame; past the last player, zeros, Confirmed.
    #[tactic(auto, using(base::proofs::Orders::get_or_within, base::proofs::Arrays::unmap, base::proofs::Arrays::view_at, base::proofs::Arrays::view_le), unfolding(crate::specs::Stores::blank_synced, crate::specs::Stores::request_of, fixed_vec::specs::FixedVec::held))]
    pub fn input(&self, player: usize) -> SyncedInput
        ensures { result ≡ get_or (request_of self.now) player blank_synced }
    {
        self.inputs.get(player).unwrap_or(BLANK_SYNCED)
    }
}

impl Requests {
    #[tactic(auto, unfolding(crate::specs::Stores::request_counts, crate::specs::Stores::request_frames, fixed_vec::specs::FixedVec::held))]
    pub(crate) fn none() -> Requests
        ensures { RequestsAs [] result }
    {
        Requests {
            frames: FixedVec {
                list: [Request::none(); MOST_ADVANCED],
                count: 0,
            },
        }
    }

    // How many frames are advanced.
    #[tactic(auto, using(base::proofs::Arrays::unmap), unfolding(crate::specs::Stores::request_frames, fixed_vec::specs::FixedVec::held))]
    pub fn count(&self) -> usize
        ensures { result ≡ length (request_frames self.now) }
    {
        self.frames.len()
    }

    // The i-th of them, in the order in which they are to be played; past the last, a frame of no players.
    #[tactic(auto, using(crate::proofs::Laws::Requests::frame_none, crate::proofs::Laws::Requests::frame_some), unfolding(crate::specs::Stores::request_of))]
    pub fn frame(&self, i: usize) -> Request
        ensures { RequestAs (get_or (request_frames self.now) i []) result }
    {
        let Some(Request { inputs }) = self.frames.get(i) else {
            return Request::none();
        };
        Request {
            inputs: FixedVec {
                count: inputs.len(),
                ..inputs
            },
        }
    }
}
