// What an endpoint is and what each of its calls does (ggrs, protocol.rs), as definitions: specs/ holds them, and the worked bouts P3 to P14
// computed from them. The calls themselves are the crate `endpoint`.
#![tactic(auto)]

// The crate's ProtocolState.
#[derive(Clone, Copy, Debug, PartialEq, Eq)]
pub enum Phase {
    Initializing,
    Synchronizing,
    Running,
    Disconnected,
    Shutdown,
}

// What was announced: an interruption, and a disconnect.
#[derive(Clone, Copy, Debug, PartialEq, Eq)]
pub struct Flags {
    pub disconnect_notify_sent: bool,
    pub disconnect_event_sent: bool,
}
