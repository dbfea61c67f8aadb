// One input as the stores keep it.

use ceilings::MOST_WIDTH;

// A frame (biased by 2^31) and its bytes, zeros past the width.
#[derive(Clone, Copy)]
pub struct InputBytes {
    pub frame: u32,
    pub bytes: [u8; MOST_WIDTH],
}
