// What an endpoint shows of itself: nothing changes.
ghost use Rattle.std.specs.Prelude.{◌≡◌};
ghost use Rattle.endpoint_rules.specs.Reports.{not_synchronized_in, early_by};
ghost use Rattle.endpoint_rules.specs.Call.{Call, Question};
ghost use Rattle.endpoint_rules.specs.Value.{Value, value_of, synchronized_in};
ghost use Rattle.endpoint.specs.Endpoint.{seen};
ghost use Rattle.endpoint.specs.Shown.{shown, HandlesAs, ChecksumsAs, shown_status, shown_stats};

use crate::Endpoint;
use answer::Refusal;
use checksums::Checksums;
use endpoint_rules::Phase;
use fixed_vec::FixedVec;
use quality::NetworkStats;
use setup::Handles;
use status::ConnectionStatus;

// Statistics are shown after a whole second.
const STATS_WAIT: u64 = 1000;

// Neither synchronizing nor running.
fn has_no_stats(phase: Phase) -> bool
    ensures { result ≡ not_synchronized_in phase }
{
    !matches!(phase, Phase::Synchronizing | Phase::Running)
}

// Also where the clock is before the start.
fn is_early(start: u64, epoch: u64) -> bool
    ensures { result ≡ early_by start epoch }
{
    epoch.saturating_sub(start) < STATS_WAIT
}

impl Endpoint {
    // Ascending, with a count that is their number.
    #[tactic(auto, using(crate::proofs::Laws::Getters::shows_handles), unfolding(fixed_vec::specs::FixedVec::held))]
    pub fn handles(self) -> Handles
        ensures { HandlesAs (seen self) result }
    {
        Handles {
            count: self.setup.handles.len(),
            ..self.setup.handles
        }
    }

    // Also after the end.
    #[tactic(auto, using(crate::proofs::Laws::Getters::shows_synchronized))]
    pub fn is_synchronized(self) -> bool
        ensures { Value.flag result ≡ value_of (Call.ask Question.is_synchronized) (seen self) }
    {
        matches!(
            self.sync.phase,
            Phase::Running | Phase::Disconnected | Phase::Shutdown
        )
    }

    #[tactic(auto, using(crate::proofs::Laws::Phases::not_running, crate::proofs::Laws::Getters::shows_running))]
    pub fn is_running(self) -> bool
        ensures { Value.flag result ≡ value_of (Call.ask Question.is_running) (seen self) }
    {
        matches!(self.sync.phase, Phase::Running)
    }

    // Whether a peer is the one that this endpoint serves.
    #[tactic(auto, using(crate::proofs::Laws::Getters::shows_peer))]
    pub fn is_handling_message(self, from: u32) -> bool
        ensures { Value.flag result ≡ value_of (Call.ask (Question.is_handling_message from)) (seen self) }
    {
        from == self.setup.peer_addr
    }

    // The newest frame received, -1 while there is none.
    #[tactic(auto, using(crate::proofs::Laws::Getters::shows_newest))]
    pub fn last_recv_frame(self) -> u32
        ensures { Value.frame result ≡ value_of (Call.ask Question.newest_frame) (seen self) }
    {
        // A copy of the history alone: to lend a part of `self` is to copy all of it.
        let history = self.history;
        history.newest()
    }

    #[tactic(auto, using(crate::proofs::Laws::Getters::shows_phase))]
    pub fn state(self) -> Phase
        ensures { Value.phase result ≡ value_of (Call.ask Question.state) (seen self) }
    {
        self.sync.phase
    }

    // Those that the other end reported, with a count that is their number.
    #[tactic(auto, using(crate::proofs::Laws::Getters::shows_checksums))]
    pub fn checksums(self) -> Checksums
        ensures { ChecksumsAs (seen self) result }
    {
        Checksums {
            entries: FixedVec {
                count: self.checksums.count(),
                ..self.checksums.entries
            },
        }
    }

    // What the other end reported of a player.
    #[tactic(auto, using(crate::proofs::Laws::Getters::status_refused, crate::proofs::Laws::Getters::status_shown))]
    pub fn peer_connect_status(self, handle: usize) -> Result<ConnectionStatus, Refusal>
        ensures { shown_status result ≡ shown (Call.peer_connect_status handle) (seen self) }
    {
        if self.setup.num_players as usize <= handle {
            return Err(Refusal::BadHandle);
        }
        Ok(self.statuses.get(handle))
    }

    #[tactic(auto, using(crate::proofs::Laws::Getters::stats_clock, crate::proofs::Laws::Getters::stats_early, crate::proofs::Laws::Getters::stats_phase, crate::proofs::Laws::Getters::stats_shown))]
    pub fn network_stats(self, epoch: u64) -> Result<NetworkStats, Refusal>
        ensures { shown_stats result ≡ shown (Call.network_stats epoch) (seen self) }
    {
        if timers::is_bad(epoch) {
            return Err(Refusal::BadClock);
        }
        if has_no_stats(self.sync.phase) {
            return Err(Refusal::NotSynchronized);
        }
        if is_early(self.quality.stats_start_time, epoch) {
            return Err(Refusal::NotEnoughData);
        }
        Ok(NetworkStats {
            ping: self.quality.round_trip_time,
            send_queue_len: self.pending.count(),
            local_frames_behind: self.quality.local_frame_advantage,
            remote_frames_behind: self.quality.remote_frame_advantage,
        })
    }
}
