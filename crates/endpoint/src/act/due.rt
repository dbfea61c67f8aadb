// What is due in Running, found out before any of it is done; and what it does to the clocks, the flags and the events.
// The plain parts are parameters each, as the definition `due_of` has them.
ghost use Rattle.std.specs.Prelude.{◌≡◌, ◌||◌, ◌+◌, ◌-◌, ltb, length};
ghost use Rattle.base.specs.Pick.{pick};
ghost use Rattle.ceilings.specs.Ceilings.{most_events};
ghost use Rattle.events.specs.Events.{held_events, has_room, PushedAs};
ghost use Rattle.endpoint.specs.Inside.Due.{due_of, clocks_by, flags_by, due_events};

use answer::Answer;
use endpoint_rules::Flags;
use events::{DISCONNECTED, Entry, Event, Events, NO_INPUT};
use timers::Clocks;

const RUNNING_RETRY_INTERVAL: u64 = 200;

const QUALITY_REPORT_INTERVAL: u64 = 200;

const KEEP_ALIVE_INTERVAL: u64 = 200;

// A resend restarts its clock also where it has no input to send.
#[derive(Clone, Copy)]
pub struct Due {
    pub resend: bool,
    pub input: bool,
    pub report: bool,
    pub keep_alive: bool,
    pub interruption: bool,
    pub disconnect: bool,
}

// The keepalive looks at the send time as the messages before it leave it.
#[tactic(auto, unfolding(crate::specs::Inside::Due::due_of))]
pub(crate) fn due_at(
    now: u64,
    clocks: Clocks,
    flags: Flags,
    pending: usize,
    notify_start: u64,
    disconnect_timeout: u64,
) -> Due
    ensures { result ≡ due_of now clocks flags (ltb 0 pending) notify_start disconnect_timeout }
{
    let resend = timers::passed(clocks.running_last_input_recv, RUNNING_RETRY_INTERVAL, now);
    let input = resend & (0 < pending);
    let report = timers::passed(
        clocks.running_last_quality_report,
        QUALITY_REPORT_INTERVAL,
        now,
    );
    let sent = timers::time_if(input | report, now, clocks.last_send_time);
    let keep_alive = timers::passed(sent, KEEP_ALIVE_INTERVAL, now);
    let quiet = timers::passed(clocks.last_recv_time, notify_start, now);
    let silent = timers::passed(clocks.last_recv_time, disconnect_timeout, now);
    Due {
        resend,
        input,
        report,
        keep_alive,
        interruption: !flags.disconnect_notify_sent & quiet,
        disconnect: !flags.disconnect_event_sent & silent,
    }
}

// How many events are due.
pub(crate) fn event_count(due: Due) -> usize
    ensures { result ≡ pick due.interruption 1 0 + pick due.disconnect 1 0 }
{
    usize::from(due.interruption) + usize::from(due.disconnect)
}

// Whether any message is due.
pub(crate) fn sends(due: Due) -> bool
    ensures { result ≡ (due.input || due.report) || due.keep_alive }
{
    due.input | due.report | due.keep_alive
}

#[tactic(auto, unfolding(crate::specs::Inside::Due::clocks_by))]
pub(crate) fn clocks_after(due: Due, now: u64, clocks: Clocks) -> Clocks
    ensures { result ≡ clocks_by due now clocks }
{
    clocks.fired(due.resend, due.report, sends(due), now)
}

#[tactic(auto, unfolding(crate::specs::Inside::Due::flags_by))]
pub(crate) fn flags_after(due: Due, flags: Flags) -> Flags
    ensures { result ≡ flags_by due flags }
{
    Flags {
        disconnect_notify_sent: due.interruption | flags.disconnect_notify_sent,
        disconnect_event_sent: due.disconnect | flags.disconnect_event_sent,
    }
}

// Both events in their order; where not all that is due fits, unchanged. What is left of the timeout is announced with an interruption.
#[tactic(auto, using(events::proofs::Laws::both_given), unfolding(crate::specs::Inside::Due::due_events))]
fn push(events: &mut Events, due: Due, disconnect_timeout: u64, notify_start: u64) -> Answer
    ensures { PushedAs events.old (has_room (held_events events.old) (length (due_events due (disconnect_timeout - notify_start)))) (due_events due (disconnect_timeout - notify_start)) result events.new }
{
    let interruption = Entry {
        event: Event::NetworkInterrupted {
            disconnect_timeout: disconnect_timeout.saturating_sub(notify_start),
        },
        input: NO_INPUT,
    };
    events.push_both(
        due.interruption.then_some(interruption),
        due.disconnect.then_some(DISCONNECTED),
    )
}

// The same, and where none is due the store is left alone. Inlined, so that it is not passed on for that.
#[inline(always)]
pub(crate) fn announce(
    events: &mut Events,
    due: Due,
    disconnect_timeout: u64,
    notify_start: u64,
) -> Answer
    requires { length events.old.entries.list ≡ most_events }
    ensures { PushedAs events.old (has_room (held_events events.old) (length (due_events due (disconnect_timeout - notify_start)))) (due_events due (disconnect_timeout - notify_start)) result events.new }
{
    if event_count(due) == 0 {
        return Ok(());
    }
    push(events, due, disconnect_timeout, notify_start)
}
