// What an Input brings besides inputs and an acknowledgement: either the other end's statuses or its request to disconnect.
// The plain parts are parameters each, as `InformedAs` has them.
ghost use Rattle.std.specs.Prelude.{◌≡◌, true, ◌&&◌};
ghost use Rattle.base.specs.Pick.{pick};
ghost use Rattle.status.specs.Statuses.{held_statuses, HeldAs, merged_all};
ghost use Rattle.codec.specs.Message.{report_list};
ghost use Rattle.endpoint_rules.specs.Receiving.{announces_by};
ghost use Rattle.endpoint.specs.Inside.Informing.{statuses_of, InformedAs};

use crate::message::hearing;
use codec::StatusReports;
use endpoint_rules::{Flags, Phase};
use status::Statuses;
use timers::Clocks;

// The plain parts of an endpoint that an Input changes whatever inputs it brings, and what it announces ahead of them.
#[derive(Clone, Copy)]
pub struct Informed {
    pub resumes: bool,
    pub disconnects: bool,
    pub clocks: Clocks,
    pub flags: Flags,
    pub statuses: Statuses,
}

#[tactic(auto, using(status::proofs::MergeAll::all_none))]
fn merge_reports(statuses: Statuses, reports: StatusReports) -> Statuses
    ensures { HeldAs (merged_all (held_statuses statuses) (statuses_of (report_list reports))) statuses.count result }
{
    let mut next = statuses;
    for (i, report) in reports.as_slice().iter().enumerate() {
        next = next.merge_report(i, report.disconnected, report.last_frame);
    }
    next
}

// An end that wants to disconnect reports nothing any more.
fn informed_statuses(
    statuses: Statuses,
    disconnect_requested: bool,
    reports: StatusReports,
) -> Statuses
    ensures { HeldAs (pick disconnect_requested (held_statuses statuses) (merged_all (held_statuses statuses) (statuses_of (report_list reports)))) statuses.count result }
{
    if disconnect_requested {
        return statuses;
    }
    merge_reports(statuses, reports)
}

// A request is announced once, and not by an endpoint that is disconnected already.
fn announces_disconnect(disconnect_requested: bool, phase: Phase, flags: Flags) -> bool
    ensures { result ≡ (disconnect_requested && announces_by phase flags) }
{
    disconnect_requested && !matches!(phase, Phase::Disconnected) && !flags.disconnect_event_sent
}

fn announced_flags(flags: Flags, disconnects: bool) -> Flags
    ensures { result ≡ pick disconnects (record { disconnect_notify_sent = flags.disconnect_notify_sent; disconnect_event_sent = true }) flags }
{
    if disconnects {
        return Flags {
            disconnect_event_sent: true,
            ..flags
        };
    }
    flags
}

pub(crate) fn inform(
    phase: Phase,
    clocks: Clocks,
    flags: Flags,
    statuses: Statuses,
    disconnect_requested: bool,
    reports: StatusReports,
    now: u64,
) -> Informed
    ensures { InformedAs phase clocks flags statuses disconnect_requested (report_list reports) now result }
{
    let heard = hearing::hear(phase, clocks, flags, now);
    let disconnects = announces_disconnect(disconnect_requested, phase, heard.flags);
    Informed {
        resumes: heard.resumes,
        disconnects,
        clocks: heard.clocks,
        flags: announced_flags(heard.flags, disconnects),
        statuses: informed_statuses(statuses, disconnect_requested, reports),
    }
}
