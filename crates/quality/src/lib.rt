// The quality of a connection (ggrs, protocol.rs): both frame advantages, the round trip time, and what `network_stats` answers.
// An advantage is held as a frame is, 2^31 above its signed number; on the wire it is an i16, held 2^15 above.
#![tactic(auto)]

ghost use Rattle.std.specs.Prelude.{◌≡◌};
ghost use Rattle.base.specs.Pick.{pick};
ghost use Rattle.quality.specs.Quality.{clamped, widened, round_trip, fresh_quality, started_at, remote_set, trip_noted, local_set};
ghost use Rattle.quality.specs.Advantage.{half_trip, advantage_of, advantage_overflows, shown_advantage};

use answer::Refusal;
use frame::BIAS32;

// What `network_stats` shows; the start is of the epoch clock.
#[derive(Clone, Copy, Debug, PartialEq, Eq)]
pub struct Quality {
    pub local_frame_advantage: u32,
    pub remote_frame_advantage: u32,
    pub round_trip_time: u64,
    pub stats_start_time: u64,
}

// The answer of `network_stats`.
#[derive(Clone, Copy, Debug, PartialEq, Eq)]
pub struct NetworkStats {
    pub ping: u64,
    pub send_queue_len: usize,
    pub local_frames_behind: u32,
    pub remote_frames_behind: u32,
}

// The least i16 as an advantage is held, and what follows the greatest.
const I16_START: u32 = 0x7FFF_8000;

const I16_END: u32 = 0x8000_8000;

// The greatest i32.
const I32_MAX: u64 = 0x7FFF_FFFF;

// An advantage as it is reported: beyond i16 it is the nearest i16.
#[tactic(auto, unfolding(crate::specs::Quality::clamped))]
pub fn clamped(advantage: u32) -> u16
    ensures { result ≡ clamped advantage }
{
    (advantage.clamp(I16_START, I16_END - 1) - I16_START) as u16
}

// A reported advantage as it is held.
#[tactic(auto, unfolding(crate::specs::Quality::widened))]
pub fn widened(advantage: u16) -> u32
    ensures { result ≡ widened advantage }
{
    u32::from(advantage) + I16_START
}

// The time since a ping was sent, by its pong of two halves: 0 where the pong is later than now, as any above u64 is.
#[tactic(auto, unfolding(crate::specs::Quality::round_trip))]
pub fn round_trip(epoch: u64, low: u64, high: u64) -> u64
    ensures { result ≡ round_trip epoch low high }
{
    if high == 0 {
        epoch.saturating_sub(low)
    } else {
        0
    }
}

// At most the greatest i32.
fn half_trip(round_trip_time: u64) -> u64
    ensures { result ≡ half_trip round_trip_time }
{
    (round_trip_time / 2).min(I32_MAX)
}

// How far the local frame is behind the frame that the other end is thought to be at, or Overflow where product, sum or difference leaves i32.
#[tactic(auto, using(crate::proofs::Overflows::product_fits), unfolding(crate::specs::Advantage::advantage_of, crate::specs::Advantage::advantage_overflows))]
pub fn local_advantage(
    received: u32,
    round_trip_time: u64,
    fps: u32,
    local_frame: u32,
) -> Result<u32, Refusal>
    ensures { shown_advantage result ≡ pick (advantage_overflows received round_trip_time fps local_frame) (6, 0) (0, advantage_of received round_trip_time fps local_frame) }
{
    let product = half_trip(round_trip_time) * u64::from(fps);
    if I32_MAX < product {
        return Err(Refusal::Overflow);
    }
    let travelled = (product / 1000) as u32;
    let remote_frame = received.checked_add(travelled).ok_or(Refusal::Overflow)?;
    let raised = u64::from(remote_frame) + u64::from(BIAS32);
    let local = u64::from(local_frame);
    let advantage = raised.checked_sub(local).ok_or(Refusal::Overflow)?;
    u32::try_from(advantage).map_err(|_| Refusal::Overflow)
}

impl Quality {
    pub fn new() -> Quality
        ensures { result ≡ fresh_quality }
    {
        Quality {
            local_frame_advantage: BIAS32,
            remote_frame_advantage: BIAS32,
            round_trip_time: 0,
            stats_start_time: 0,
        }
    }

    pub fn started(self, epoch: u64) -> Quality
        ensures { result ≡ started_at epoch self }
    {
        Quality {
            stats_start_time: epoch,
            ..self
        }
    }

    pub fn remote(self, advantage: u16) -> Quality
        ensures { result ≡ remote_set advantage self }
    {
        Quality {
            remote_frame_advantage: widened(advantage),
            ..self
        }
    }

    pub fn tripped(self, time: u64) -> Quality
        ensures { result ≡ trip_noted time self }
    {
        Quality {
            round_trip_time: time,
            ..self
        }
    }

    pub fn local(self, advantage: u32) -> Quality
        ensures { result ≡ local_set advantage self }
    {
        Quality {
            local_frame_advantage: advantage,
            ..self
        }
    }
}
