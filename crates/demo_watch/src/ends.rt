// What both ends have: a letter, which is an end's magic and its number as a peer too, and the time of day.
pub(crate) const HOST: u8 = b'H';

pub(crate) const BOX: u8 = b'B';

// The epoch, in milliseconds, when the program's clock stands at 0.
const EPOCH: u64 = 1700000000000;

pub(crate) fn epoch(now: u32) -> u64 {
    EPOCH + u64::from(now)
}
