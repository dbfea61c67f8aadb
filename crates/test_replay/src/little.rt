// Little-endian numbers at a fixed place of a slice, where what lies past its end reads as 0.
use std::array;

fn bytes_at<const N: usize>(bytes: &[u8], at: usize) -> [u8; N] {
    array::from_fn(|i| bytes.get(at.saturating_add(i)).copied().unwrap_or(0))
}

pub(crate) fn u8_at(bytes: &[u8], at: usize) -> u8 {
    bytes.get(at).copied().unwrap_or(0)
}

pub(crate) fn u16_at(bytes: &[u8], at: usize) -> u16 {
    u16::from_le_bytes(bytes_at(bytes, at))
}

pub(crate) fn u32_at(bytes: &[u8], at: usize) -> u32 {
    u32::from_le_bytes(bytes_at(bytes, at))
}

pub(crate) fn u64_at(bytes: &[u8], at: usize) -> u64 {
    u64::from_le_bytes(bytes_at(bytes, at))
}

// A frame from the bits of its i32.
pub(crate) fn frame_at(bytes: &[u8], at: usize) -> u32 {
    frame::bits_of(u32_at(bytes, at))
}
