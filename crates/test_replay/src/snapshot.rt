// The state of an endpoint in canonical form: docs/REPLAY.md has the order.
use crate::out::Out;
use crate::stop::Stop;
use checksums::Checksums;
use endpoint::{Endpoint, Sync};
use endpoint_rules::{Flags, Phase};
use events::{Entry, Event, Events};
use nonces::Nonces;
use packing::InputBytes;
use quality::Quality;
use setup::{DesyncDetection, Handles, Setup};
use status::{ConnectionStatus, Statuses};
use timers::Clocks;

pub(crate) fn put_endpoint(out: Out, endpoint: Endpoint, queue: &[u8]) -> Result<Out, Stop> {
    let out = put_standing(out, endpoint)?;
    let out = put_stores(out, endpoint)?;
    out.part(text::filled(queue, endpoint.queued))
}

// What the setup fixed, and where the endpoint stands.
fn put_standing(out: Out, endpoint: Endpoint) -> Result<Out, Stop> {
    let out = out.u8(phase_number(endpoint.sync.phase))?;
    let out = put_setup(out, endpoint.setup)?;
    let out = put_handshake(out, endpoint.sync, endpoint.nonces, endpoint.flags)?;
    let out = put_clocks(out, endpoint.clocks)?;
    let out = put_quality(out, endpoint.quality)?;
    put_statuses(out, endpoint.statuses)
}

// What it holds, each input in the bytes of its side's width. The history ascends as it stands: only frames above its newest are taken in, and they go to
// its end.
fn put_stores(out: Out, endpoint: Endpoint) -> Result<Out, Stop> {
    let sending = endpoint.setup.sending_width();
    let out = put_inputs(out, endpoint.pending.inputs.as_slice(), sending)?;
    let out = put_input(out, &endpoint.acked, sending)?;
    let receiving = endpoint.setup.receiving_width();
    let out = put_inputs(out, endpoint.history.inputs.as_slice(), receiving)?;
    let out = put_checksums(out, endpoint.checksums)?;
    put_events(out, endpoint.events, endpoint.setup.input_size)
}

fn phase_number(phase: Phase) -> u8 {
    match phase {
        Phase::Initializing => 1,
        Phase::Synchronizing => 2,
        Phase::Running => 3,
        Phase::Disconnected => 4,
        Phase::Shutdown => 5,
    }
}

// The numbers of a list, their count before them.
fn put_list(out: Out, list: &[u32]) -> Result<Out, Stop> {
    let mut out = out.count(list.len())?;
    for number in list {
        out = out.u32(*number)?;
    }
    Ok(out)
}

pub(crate) fn put_handles(out: Out, handles: Handles) -> Result<Out, Stop> {
    put_list(out, handles.as_slice())
}

fn put_setup(out: Out, setup: Setup) -> Result<Out, Stop> {
    let out = put_handles(out.u32(setup.num_players)?, setup.handles)?
        .u32(setup.input_size)?
        .count(setup.sending_width())?
        .u32(setup.max_prediction)?
        .u32(setup.fps)?
        .u64(setup.disconnect_timeout)?
        .u64(setup.disconnect_notify_start)?
        .u32(setup.peer_addr)?
        .u16(setup.magic)?;
    match setup.choices.desync_detection {
        DesyncDetection::Off => out.u16(0)?.u32(0),
        DesyncDetection::On { interval } => out.u16(1)?.u32(interval),
    }
}

fn put_handshake(out: Out, sync: Sync, nonces: Nonces, flags: Flags) -> Result<Out, Stop> {
    put_list(out.u32(sync.remaining)?, nonces.list.as_slice())?
        .u16(sync.remote_magic)?
        .flag(flags.disconnect_notify_sent)?
        .flag(flags.disconnect_event_sent)
}

fn put_clocks(out: Out, clocks: Clocks) -> Result<Out, Stop> {
    out.u64(clocks.running_last_quality_report)?
        .u64(clocks.running_last_input_recv)?
        .u64(clocks.last_send_time)?
        .u64(clocks.last_sync_request_time)?
        .u64(clocks.last_recv_time)?
        .u64(clocks.shutdown_timeout)
}

// An advantage is held as a frame is.
fn put_quality(out: Out, quality: Quality) -> Result<Out, Stop> {
    out.u64(quality.stats_start_time)?
        .u64(quality.round_trip_time)?
        .frame(quality.local_frame_advantage)?
        .frame(quality.remote_frame_advantage)
}

pub(crate) fn put_status(out: Out, status: ConnectionStatus) -> Result<Out, Stop> {
    out.flag(status.disconnected)?.frame(status.last_frame)
}

pub(crate) fn put_statuses(out: Out, statuses: Statuses) -> Result<Out, Stop> {
    let n = statuses.count();
    let mut out = out.count(n)?;
    for i in 0..n {
        out = put_status(out, statuses.get(i))?;
    }
    Ok(out)
}

fn put_input(out: Out, input: &InputBytes, width: usize) -> Result<Out, Stop> {
    out.frame(input.frame)?
        .bytes(text::filled(&input.bytes, width))
}

// The inputs of a list, their count before them.
fn put_inputs(out: Out, list: &[InputBytes], width: usize) -> Result<Out, Stop> {
    let mut out = out.count(list.len())?;
    for input in list {
        out = put_input(out, input, width)?;
    }
    Ok(out)
}

// Ascending by frame, while they are held in the order of their arrival.
fn put_checksums(out: Out, checksums: Checksums) -> Result<Out, Stop> {
    let mut ascending = checksums.entries;
    let n = ascending.len();
    ascending.list[..n].sort_unstable_by_key(|checksum| checksum.frame);
    let mut out = out.count(n)?;
    for checksum in ascending.as_slice() {
        out = out
            .frame(checksum.frame)?
            .u64(checksum.low)?
            .u64(checksum.high)?;
    }
    Ok(out)
}

// Of an input its first bytes, their count in one byte before them.
fn put_event(out: Out, entry: Entry, size: u32) -> Result<Out, Stop> {
    match entry.event {
        Event::Synchronizing { total, count } => out.u8(0)?.u32(total)?.u32(count),
        Event::Synchronized => out.u8(1),
        Event::Input { frame, player } => out
            .u8(2)?
            .frame(frame)?
            .u32(player)?
            .u8((size % 0x100) as u8)?
            .bytes(text::filled(&entry.input, size as usize)),
        Event::Disconnected => out.u8(3),
        Event::NetworkInterrupted { disconnect_timeout } => out.u8(4)?.u64(disconnect_timeout),
        Event::NetworkResumed => out.u8(5),
    }
}

pub(crate) fn put_events(out: Out, events: Events, size: u32) -> Result<Out, Stop> {
    let entries = events.entries.as_slice();
    let mut out = out.count(entries.len())?;
    for entry in entries {
        out = put_event(out, *entry, size)?;
    }
    Ok(out)
}
