// CRC-32 as in zip and Ethernet, half a byte at a time.

// What four shifts of each low half leave to be mixed in.
const TABLE: [u32; 16] = [
    0x0000_0000,
    0x1DB7_1064,
    0x3B6E_20C8,
    0x26D9_30AC,
    0x76DC_4190,
    0x6B6B_51F4,
    0x4DB2_6158,
    0x5005_713C,
    0xEDB8_8320,
    0xF00F_9344,
    0xD6D6_A3E8,
    0xCB61_B38C,
    0x9B64_C2B0,
    0x86D3_D2D4,
    0xA00A_E278,
    0xBDBD_F21C,
];

// The sum of no bytes, before `sum_of` closes it.
pub const NONE: u32 = 0xFFFF_FFFF;

pub(crate) fn crc32(bytes: &[u8]) -> u32 {
    sum_of(with_bytes(NONE, bytes))
}

pub(crate) fn sum_of(crc: u32) -> u32 {
    crc ^ 0xFFFF_FFFF
}

pub(crate) fn with_bytes(before: u32, bytes: &[u8]) -> u32 {
    // Lent to each step: a step that named the constant would copy it.
    let table = TABLE;
    bytes
        .iter()
        .fold(before, |crc, byte| with_byte(crc, *byte, &table))
}

fn with_byte(crc: u32, byte: u8, table: &[u32; 16]) -> u32 {
    four_shifts(four_shifts(crc ^ u32::from(byte), table), table)
}

fn four_shifts(crc: u32, table: &[u32; 16]) -> u32 {
    let low = (crc % 16) as usize;
    table[low] ^ (crc / 16)
}
