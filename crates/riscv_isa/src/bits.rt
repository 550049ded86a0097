//! Fields of a word.

ghost use Rattle.std.specs.Prelude.{◌≡◌, ℕ, pos, negsuc, ◌+◌, ◌*◌, ◌^◌, ◌<◌, ◌≤◌, ◌≤ℤ◌};
ghost use Rattle.pan_base.specs.Words.{signed};
ghost use Rattle.riscv_isa.specs.Table.{field};

/// The `count` bits of a word from bit `low` on.
pub fn bits_of(word: u32, low: u32, count: u32) -> u32
    requires low { low < 32 }
    requires count { count < 32 }
    ensures value { result ≡ field low count word }
    ensures bound { result < 2 ^ count }
{
    (word >> low) & ((1 << count) - 1)
}

/// `high` before the `count` bits of `low`.
pub fn join(high: u32, count: u32, low: u32) -> u32
    requires count { count < 32 }
    requires low { low < 2 ^ count }
    requires fits { high * 2 ^ count < 2 ^ 32 }
    ensures { result ≡ high * 2 ^ count + low }
{
    high << count | low
}

/// The 12 bits of a number.
pub fn unsigned_12(number: i32) -> u32
    requires low { negsuc 2047 ≤ℤ number }
    requires high { number ≤ℤ pos 2047 }
    ensures value { signed 12 result ≡ number }
    ensures bound { result < 2 ^ 12 }
{
    if number < 0 {
        (number + 4096) as u32
    } else {
        number as u32
    }
}

/// The 13 bits of a number.
pub fn unsigned_13(number: i32) -> u32
    requires low { negsuc 4095 ≤ℤ number }
    requires high { number ≤ℤ pos 4095 }
    ensures value { signed 13 result ≡ number }
    ensures bound { result < 2 ^ 13 }
{
    if number < 0 {
        (number + 8192) as u32
    } else {
        number as u32
    }
}

/// The 21 bits of a number.
pub fn unsigned_21(number: i32) -> u32
    requires low { negsuc 1048575 ≤ℤ number }
    requires high { number ≤ℤ pos 1048575 }
    ensures value { signed 21 result ≡ number }
    ensures bound { result < 2 ^ 21 }
{
    if number < 0 {
        (number + 2097152) as u32
    } else {
        number as u32
    }
}

/// The number that 12 bits stand for in two's complement.
pub fn signed_12(bits: u32) -> i32
    requires { bits < 2 ^ 12 }
    ensures { result ≡ signed 12 bits }
{
    if bits < 2048 {
        bits as i32
    } else {
        bits as i32 - 4096
    }
}

/// The number that 13 bits stand for in two's complement.
pub fn signed_13(bits: u32) -> i32
    requires { bits < 2 ^ 13 }
    ensures { result ≡ signed 13 bits }
{
    if bits < 4096 {
        bits as i32
    } else {
        bits as i32 - 8192
    }
}

/// The number that 21 bits stand for in two's complement.
pub fn signed_21(bits: u32) -> i32
    requires { bits < 2 ^ 21 }
    ensures { result ≡ signed 21 bits }
{
    if bits < 1048576 {
        bits as i32
    } else {
        bits as i32 - 2097152
    }
}
