// Numbers in decimal. The digits are those of crate itoa.
ghost use Rattle.std.specs.Prelude.{◌≡◌};
ghost use Rattle.text.specs.Decimal.{decimal_of, signed_of, text_of};

use itoa::Buffer;

// A number as text: the bytes from `start` on. The longest number has 39 digits, and one byte more leaves room for a sign.
// No `FixedVec`, which fills from the front: a sign goes in front of the digits.
#[derive(Clone, Copy)]
pub struct Numeral {
    pub bytes: [u8; 40],
    pub start: usize,
}

impl Numeral {
    // The text; none where `start` lies beyond the array.
    #[tactic(auto, unfolding(crate::specs::Decimal::text_of))]
    pub fn as_slice(&self) -> &[u8]
        ensures { result.now ≡ text_of self.now }
    {
        &self.bytes[self.start.min(40)..]
    }
}

#[tactic(auto, using(crate::proofs::DecimalLaws::decimal_std, crate::proofs::NumeralLaws::at_end))]
pub fn decimal(n: u128) -> Numeral
    ensures { text_of result ≡ decimal_of n }
{
    let mut buffer = Buffer::new();
    let digits = buffer.format(n).as_bytes();
    let mut bytes = [0u8; 40];
    let start = bytes.len() - digits.len();
    bytes[start..].copy_from_slice(digits);
    Numeral { bytes, start }
}

// The number n - bias.
#[tactic(auto, using(crate::proofs::NumeralLaws::minus, crate::proofs::NumeralLaws::not_negative, crate::proofs::NumeralLaws::sign_place))]
pub fn signed(n: u32, bias: u32) -> Numeral
    ensures { text_of result ≡ signed_of bias n }
{
    if bias <= n {
        return decimal(u128::from(n - bias));
    }
    let mut value = decimal(u128::from(bias - n));
    value.start -= 1;
    value.bytes[value.start] = b'-';
    value
}
