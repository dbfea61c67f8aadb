// 2^32, under the name that several crates use. The definition of a range (`specs/Range.antt`) is theirs too.
#![tactic(auto)]

// How many values a word of 32 bits has. Two such words are one of 64 bits, and there are so many frames.
pub const WORD: u64 = 0x1_0000_0000;
