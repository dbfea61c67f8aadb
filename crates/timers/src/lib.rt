// The timer clocks of an endpoint (ggrs, protocol.rs), when a clock is refused, and when a wait is over.
#![tactic(auto)]

ghost use Rattle.std.specs.Prelude.{◌≡◌};
ghost use Rattle.base.specs.Pick.{pick};
ghost use Rattle.timers.specs.Timers.{bad_clock, passed, made_at, input_at, sent_at, request_at, heard_at, shutdown_at, timed};

// The first clock that is refused.
pub const CLOCK_END: u64 = 0x4000_0000_0000_0000;

// The timer clocks, in milliseconds of the monotonic clock.
#[derive(Clone, Copy, Debug, PartialEq, Eq)]
pub struct Clocks {
    pub running_last_quality_report: u64,
    pub running_last_input_recv: u64,
    pub last_send_time: u64,
    pub last_sync_request_time: u64,
    pub last_recv_time: u64,
    pub shutdown_timeout: u64,
}

pub fn is_bad(now: u64) -> bool
    ensures { result ≡ bad_clock now }
{
    CLOCK_END <= now
}

// By differences, since the sum of two clocks may leave u64.
pub fn passed(last: u64, wait: u64, now: u64) -> bool
    ensures { result ≡ passed last wait now }
{
    wait < now.saturating_sub(last)
}

// A clock after a step that sets it where it is due.
// Public, and named by docs/LEAVES.md.
pub fn time_if(due: bool, now: u64, last: u64) -> u64
    ensures { result ≡ pick due now last }
{
    if due { now } else { last }
}

// The thin setter that F-7 asks for: each step lends it the clocks that it sets, and every other clock stays as it was.
fn set(clock: &mut u64, at: u64)
    ensures { clock.new ≡ at }
{
    *clock = at;
}

impl Clocks {
    pub fn new(now: u64) -> Clocks
        ensures { result ≡ made_at now }
    {
        Clocks {
            running_last_quality_report: now,
            running_last_input_recv: now,
            last_send_time: now,
            last_sync_request_time: now,
            last_recv_time: now,
            shutdown_timeout: now,
        }
    }

    pub fn input_received(mut self, now: u64) -> Clocks
        ensures { result ≡ input_at now self }
    {
        set(&mut self.running_last_input_recv, now);
        self
    }

    pub fn sent(mut self, now: u64) -> Clocks
        ensures { result ≡ sent_at now self }
    {
        set(&mut self.last_send_time, now);
        self
    }

    pub fn requested(mut self, now: u64) -> Clocks
        ensures { result ≡ request_at now self }
    {
        set(&mut self.last_sync_request_time, now);
        self
    }

    pub fn heard(mut self, now: u64) -> Clocks
        ensures { result ≡ heard_at now self }
    {
        set(&mut self.last_recv_time, now);
        self
    }

    // What an act restarts: the input's clock with a resend, the report's with a report, and the send time where anything goes out.
    // One call with three flags: public, and named by docs/LEAVES.md.
    pub fn fired(mut self, resend: bool, report: bool, sends: bool, now: u64) -> Clocks
        ensures { result ≡ timed now resend report sends self }
    {
        if resend {
            set(&mut self.running_last_input_recv, now);
        }
        if report {
            set(&mut self.running_last_quality_report, now);
        }
        if sends {
            set(&mut self.last_send_time, now);
        }
        self
    }

    pub fn shutting_down(mut self, at: u64) -> Clocks
        ensures { result ≡ shutdown_at at self }
    {
        set(&mut self.shutdown_timeout, at);
        self
    }
}
