// Frames and frame advantages as numbers from 0 on: frame f is held as f + 2^31, so that -1 is NULL_FRAME,
// the least i32 is 0 and the order of frames is the plain order of numbers.
#![tactic(auto)]

ghost use Rattle.std.specs.Prelude.{◌≡◌};
ghost use Rattle.frame.specs.Bias.{bias32, bias16, biased, signed, bits_of};

// What a frame stands above its signed number.
pub const BIAS32: u32 = 0x8000_0000;

// The same for an advantage on the wire, which is an i16 there.
pub const BIAS16: u16 = 0x8000;

// How many frames there are, of the type that frames are counted in.
pub const FRAMES: usize = numbers::WORD as usize;

// Frame -1: no frame.
pub const NULL_FRAME: u32 = 0x7FFF_FFFF;

// The greatest frame, 2^31 - 1: none comes after it.
pub const GREATEST_FRAME: u32 = 0xFFFF_FFFF;

// The bits of the i32, turned to what holds it.
#[tactic(auto, using(crate::proofs::Bits::bits_held), unfolding(crate::specs::Bias::bits_of))]
pub fn from_signed(frame: i32) -> u32
    ensures { result ≡ biased bias32 frame }
{
    frame.cast_unsigned().wrapping_add(BIAS32)
}

// What people read is signed.
#[tactic(auto, using(crate::proofs::Bits::held_bits), unfolding(crate::specs::Bias::bits_of))]
pub fn to_signed(frame: u32) -> i32
    ensures { result ≡ signed bias32 frame }
{
    frame.wrapping_add(BIAS32).cast_signed()
}

// The bits of the i32 that a frame is on the wire, and back: it undoes itself.
#[tactic(auto, unfolding(crate::specs::Bias::bits_of))]
pub fn bits_of(frame: u32) -> u32
    ensures { result ≡ bits_of bias32 frame }
{
    frame.wrapping_add(BIAS32)
}

// The same for the i16 of an advantage. A trait over both widths would be no plainer: it would hold this line twice.
#[tactic(auto, unfolding(crate::specs::Bias::bits_of))]
pub fn advantage_bits_of(advantage: u16) -> u16
    ensures { result ≡ bits_of bias16 advantage }
{
    advantage.wrapping_add(BIAS16)
}
