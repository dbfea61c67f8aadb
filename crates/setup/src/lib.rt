// The setup of an endpoint: what is given to `new`, whether it keeps the ceilings, and what an endpoint reads of it.
#![tactic(auto)]

ghost use Rattle.std.specs.Prelude.{◌≡◌};
ghost use Rattle.setup.specs.Setup.{terms_of, SortedAs, bad_setup, bad_desync, choices_with, interval_of, receiving_width, sending_width};

mod handles;

use fixed_vec::FixedVec;

// Whether the ends report checksums of their frames to each other, to find out where their games differ. ggrs: `DesyncDetection`. No Option, though of its
// shape: the definitions `bad_desync` and `interval_of` go by these variants, and docs/API.md has them as ggrs has.
#[derive(Clone, Copy, Debug, PartialEq, Eq)]
pub enum DesyncDetection {
    // Reports that come all the same are stored as with an interval of 1, or firmly.
    Off,
    // Every so many frames: 1 to 10,000. From 32 stored checksums on, those more than 31 intervals before a new one are dropped, unless `firm_checksums` is set.
    On { interval: u32 },
}

// What a setup chooses between ways of working. `Choices::new` gives the crate's; set a field to choose another.
#[derive(Clone, Copy, Debug, PartialEq, Eq)]
pub struct Choices {
    // Whether the ends report checksums of frames to each other, and how many frames apart: off, or on with an interval of 1 to 10,000. Both ends choose
    // alike. ggrs: `desync_detection`.
    pub desync_detection: DesyncDetection,
    // Whether the store of reported checksums has a firm size. It then holds the 32 largest distinct frames reported, each with its latest checksum, in
    // whatever order they come, and refuses none (neither 5 nor 6). The interval is not looked at, and detection may be off. Each end chooses by itself.
    // ggrs has no such choice.
    pub firm_checksums: bool,
}

// The numbers of the players at the other end, in any order; `new` sorts them. The count is as given: one above 4 is refused.
pub type Handles = FixedVec<u32, { ceilings::MOST_PLAYERS }>;

// What `new` is given. It takes any numbers, and refuses those outside the ranges below with 1 (BadSetup). `ggrs:` says what the crate's `UdpProtocol::new` calls
// a field.
#[derive(Clone, Copy)]
pub struct Setup {
    // How many players take part, at all ends together: 1 to 4. ggrs: `num_players`.
    pub num_players: u32,
    // The players at the other end, whose inputs this endpoint receives: 1 to 4 of them, none twice, each number at most 65,535. ggrs: `handles`.
    pub handles: Handles,
    // How many players are at this end, whose inputs it sends: 1 to 4, and no more than `num_players`. ggrs: `local_players`.
    pub local_players: u32,
    // How many bytes one player's input of one frame has: 1 to 16. In ggrs it is the size of the game's input type.
    pub input_size: u32,
    // How many frames the game may be ahead of the inputs that it has received: 0 to 16. Of the frames received the newest and those up to twice as many
    // before it are kept, to read late packets with. ggrs: `max_prediction`.
    pub max_prediction: u32,
    // Milliseconds of silence after which Disconnected is announced: at most 2^31. ggrs: `disconnect_timeout`.
    pub disconnect_timeout: u64,
    // Milliseconds of silence after which NetworkInterrupted is announced: at most 2^31. ggrs: `disconnect_notify_start`.
    pub disconnect_notify_start: u64,
    // How many frames the game has in a second: 1 to 240. It turns the round trip time into frames. ggrs: `fps`.
    pub fps: u32,
    // The number that stands in every message of this end: 1 to 65,535, chosen at random, so that messages of an older connection do not pass for those of this one.
    // ggrs: `magic`, which it draws itself.
    pub magic: u16,
    // The number by which the owner knows the other end, any: messages that come from another one are ignored. ggrs: `peer_addr`, an address.
    pub peer_addr: u32,
    // Ways of working: which checksums are reported, and how those that come are stored.
    pub choices: Choices,
}

// The ceilings that a setup alone has: of a timeout in milliseconds, of fps and of the interval between checksum reports.
const MOST_TIMEOUT: u64 = 0x8000_0000;

const MOST_FPS: u32 = 240;

const MOST_INTERVAL: u32 = 10000;

// The others, in the width of the setup's fields.
const MOST_PLAYERS: u32 = ceilings::MOST_PLAYERS as u32;

const MOST_INPUT_SIZE: u32 = ceilings::MOST_INPUT_SIZE as u32;

const MOST_PREDICTION: u32 = ceilings::MOST_PREDICTION as u32;

impl DesyncDetection {
    fn is_bad(self) -> bool
        ensures { result ≡ bad_desync self }
    {
        match self {
            DesyncDetection::Off => false,
            DesyncDetection::On { interval } => !(1..=MOST_INTERVAL).contains(&interval),
        }
    }
}

impl Choices {
    // The crate's rule in all but what is given.
    pub fn new(desync_detection: DesyncDetection) -> Choices
        ensures { result ≡ choices_with desync_detection }
    {
        Choices {
            desync_detection,
            firm_checksums: false,
        }
    }
}

impl Setup {
    // A number lies outside the ceilings. `|` makes every test, so that the code has one way.
    pub fn is_bad(self) -> bool
        ensures { result ≡ bad_setup self }
    {
        !(1..=MOST_PLAYERS).contains(&self.num_players)
            | handles::is_bad(self.handles)
            | !(1..=MOST_PLAYERS).contains(&self.local_players)
            | (self.num_players < self.local_players)
            | !(1..=MOST_INPUT_SIZE).contains(&self.input_size)
            | (MOST_PREDICTION < self.max_prediction)
            | (MOST_TIMEOUT < self.disconnect_timeout)
            | (MOST_TIMEOUT < self.disconnect_notify_start)
            | !(1..=MOST_FPS).contains(&self.fps)
            | (self.magic == 0)
            | self.choices.desync_detection.is_bad()
    }

    // The handles ascending, all else as it was, the count too.
    pub fn sorted(mut self) -> Setup
        ensures { SortedAs self result }
    {
        handles::sort(&mut self.handles);
        self
    }

    #[tactic(auto, unfolding(crate::specs::Setup::terms_with, fixed_vec::specs::FixedVec::held))]
    pub fn receiving_width(self) -> usize
        ensures { result ≡ receiving_width (terms_of self) }
    {
        self.handles.len() * self.input_size as usize
    }

    #[tactic(auto, unfolding(crate::specs::Setup::terms_with))]
    pub fn sending_width(self) -> usize
        ensures { result ≡ sending_width (terms_of self) }
    {
        self.local_players as usize * self.input_size as usize
    }

    // In frames; off counts as 1.
    pub fn interval(self) -> u32
        ensures { result ≡ interval_of self.choices.desync_detection }
    {
        match self.choices.desync_detection {
            DesyncDetection::Off => 1,
            DesyncDetection::On { interval } => interval,
        }
    }
}
