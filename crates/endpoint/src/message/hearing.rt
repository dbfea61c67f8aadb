// What every message that is not ignored brings: the receive time, and in Running the end of an announced interruption.
// The plain parts are parameters each, as the definition `heard_by` has them.
ghost use Rattle.std.specs.Prelude.{◌≡◌, ◌&&◌};
ghost use Rattle.endpoint_rules.specs.Seen.{is_running};
ghost use Rattle.endpoint.specs.Inside.Hearing.{heard_by, resumed_flags};

use endpoint_rules::{Flags, Phase};
use timers::Clocks;

// The plain parts of an endpoint that have heard a message, and whether that ends an interruption, which is then announced.
#[derive(Clone, Copy)]
pub struct Heard {
    pub resumes: bool,
    pub clocks: Clocks,
    pub flags: Flags,
}

pub(crate) fn is_resuming(phase: Phase, flags: Flags) -> bool
    ensures { result ≡ (is_running phase && flags.disconnect_notify_sent) }
{
    matches!(phase, Phase::Running) && flags.disconnect_notify_sent
}

fn resumed_flags(flags: Flags, resumes: bool) -> Flags
    ensures { result ≡ resumed_flags resumes flags }
{
    if resumes {
        return Flags {
            disconnect_notify_sent: false,
            ..flags
        };
    }
    flags
}

pub(crate) fn hear(phase: Phase, clocks: Clocks, flags: Flags, now: u64) -> Heard
    ensures { result ≡ heard_by phase clocks flags now }
{
    let resumes = is_resuming(phase, flags);
    Heard {
        resumes,
        clocks: clocks.heard(now),
        flags: resumed_flags(flags, resumes),
    }
}
