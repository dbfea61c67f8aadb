// Text into lent buffers: numbers in decimal, bytes in hexadecimal, pieces one after another, and a draft of them.
#![tactic(auto)]

mod draft;
mod hexadecimal;
mod number;
mod pieces;

pub use draft::Draft;
pub use hexadecimal::hex;
pub use number::{Numeral, decimal, signed};
pub use pieces::{append, filled, lay};
