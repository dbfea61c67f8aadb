// The inputs received: slots one after the other, each of four places, one per player. A frame goes to the slot of its number mod the slots.
ghost use Rattle.std.specs.Prelude.{◌≡◌, length};
ghost use Rattle.spectator_rules.specs.Inputs.{fresh_inputs, place_of, input_stored, player_input_at};
ghost use Rattle.spectator.specs.Stores.{inputs_of, InputsAs};

use ceilings::{MOST_INPUT_SIZE, MOST_PLACES, MOST_PLAYERS, MOST_SLOTS};
use fixed_vec::FixedVec;
use frame::{BIAS32, NULL_FRAME};
use spectator_rules::PlayerInput;

#[derive(Clone, Copy)]
pub struct Inputs {
    pub entries: FixedVec<PlayerInput, MOST_PLACES>,
}

// What stands in the place of no input: frame -1, zeros.
const BLANK_INPUT: PlayerInput = PlayerInput {
    frame: NULL_FRAME,
    input: [0; MOST_INPUT_SIZE],
};

// A frame below frame 0 counts as frame 0; with no slots there is no place.
fn place_of(slots: u32, frame: u32, player: u32) -> usize
    ensures { result ≡ place_of slots frame player }
{
    let number = frame.saturating_sub(BIAS32);
    let slot = number.checked_rem(slots).unwrap_or(number);
    slot as usize * MOST_PLAYERS + player as usize
}

impl Inputs {
    // Every place blank, of at most 64 slots.
    #[tactic(auto, using(crate::proofs::Laws::Creation::makes))]
    pub(crate) fn new(slots: u32) -> Inputs
        ensures { InputsAs (fresh_inputs slots) result }
    {
        Inputs {
            entries: FixedVec {
                list: [BLANK_INPUT; MOST_PLACES],
                count: (slots as usize).min(MOST_SLOTS) * MOST_PLAYERS,
            },
        }
    }

    // How many places there are, four a slot.
    #[tactic(auto, using(base::proofs::Arrays::unmap), unfolding(crate::specs::Stores::inputs_of, fixed_vec::specs::FixedVec::held))]
    pub fn count(&self) -> usize
        ensures { result ≡ length (inputs_of self.now) }
    {
        self.entries.len()
    }

    // What stands at the place of a player's input of a frame; blank where there is no such place.
    #[tactic(auto, using(base::proofs::Orders::get_or_within, base::proofs::Arrays::unmap, base::proofs::Arrays::view_at, base::proofs::Arrays::view_le), unfolding(spectator_rules::specs::Inputs::blank_input, crate::specs::Stores::inputs_of, spectator_rules::specs::Inputs::player_input_at, fixed_vec::specs::FixedVec::held))]
    pub(crate) fn at(&self, slots: u32, frame: u32, player: u32) -> PlayerInput
        ensures { result ≡ player_input_at slots frame player (inputs_of self.now) }
    {
        let place = place_of(slots, frame, player);
        self.entries.get(place).unwrap_or(BLANK_INPUT)
    }

    // A player's input of a frame goes to its place, over what stood there.
    #[tactic(auto, using(crate::proofs::Laws::Counts::counted_view, base::proofs::Arrays::unmap, base::proofs::Arrays::view_le), unfolding(spectator_rules::specs::Inputs::input_stored, crate::specs::Stores::inputs_of, fixed_vec::specs::FixedVec::held))]
    pub(crate) fn store(
        &mut self,
        slots: u32,
        frame: u32,
        player: u32,
        input: [u8; MOST_INPUT_SIZE],
    )
        ensures { InputsAs (input_stored slots frame player input (inputs_of self.old)) self.new }
    {
        let place = place_of(slots, frame, player);
        self.entries.set(place, PlayerInput { frame, input });
        self.entries.count = self.count();
    }
}
