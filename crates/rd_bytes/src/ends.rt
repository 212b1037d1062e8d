//! Bytes that are read from their end, and the numbers that stand there, little-endian.

ghost use Rattle.std.specs.Prelude.{◌≡◌, ◌+◌, ◌<◌, ◌≤◌, length, IfSome};
ghost use Rattle.rd_bytes.specs.Ends.{all_but, byte_of_number, bytes_before, number_of_byte};
ghost use Rattle.rd_bytes.specs.Ends.{end_byte, end_short, end_word, end_long};

/// The byte that is `k` from the end, 1 the last one.
#[inline(always)]
pub fn end_byte(bytes: &[u8], k: usize) -> u8
    requires some { 1 ≤ k }
    requires there { k ≤ length bytes.now }
    ensures { result ≡ end_byte k bytes.now }
{
    bytes[bytes.len() - k]
}

/// The number of two bytes, of which the last is `k` from the end.
#[inline(always)]
pub fn end_short(bytes: &[u8], k: usize) -> u16
    requires some { 1 ≤ k }
    requires there { k + 1 ≤ length bytes.now }
    ensures { result ≡ end_short k bytes.now }
{
    u16::from_le_bytes([end_byte(bytes, k + 1), end_byte(bytes, k)])
}

/// The number of four bytes, of which the last is `k` from the end.
#[inline(always)]
pub fn end_word(bytes: &[u8], k: usize) -> u32
    requires some { 1 ≤ k }
    requires there { k + 3 ≤ length bytes.now }
    ensures { result ≡ end_word k bytes.now }
{
    u32::from_le_bytes([
        end_byte(bytes, k + 3),
        end_byte(bytes, k + 2),
        end_byte(bytes, k + 1),
        end_byte(bytes, k),
    ])
}

/// The number of eight bytes, of which the last is `k` from the end.
#[inline(always)]
pub fn end_long(bytes: &[u8], k: usize) -> u64
    requires some { 1 ≤ k }
    requires there { k + 7 ≤ length bytes.now }
    ensures { result ≡ end_long k bytes.now }
{
    u64::from_le_bytes([
        end_byte(bytes, k + 7),
        end_byte(bytes, k + 6),
        end_byte(bytes, k + 5),
        end_byte(bytes, k + 4),
        end_byte(bytes, k + 3),
        end_byte(bytes, k + 2),
        end_byte(bytes, k + 1),
        end_byte(bytes, k),
    ])
}

/// All bytes but the last `k`.
#[inline(always)]
pub fn all_but(bytes: &[u8], k: usize) -> &[u8]
    requires { k ≤ length bytes.now }
    ensures { result.now ≡ all_but k bytes.now }
{
    &bytes[..bytes.len() - k]
}

/// The `n` bytes before the last `k`.
#[inline(always)]
pub fn bytes_before(bytes: &[u8], k: usize, n: usize) -> &[u8]
    requires { k + n ≤ length bytes.now }
    ensures { result.now ≡ bytes_before k n bytes.now }
{
    let before = all_but(bytes, k);
    &before[bytes.len() - (k + n)..]
}

/// A number below 255 in one byte, which is 255 for none.
#[inline(always)]
pub fn byte_of_number(number: Option<usize>) -> u8
    requires { IfSome number (λ n. n < 255) }
    ensures { result ≡ byte_of_number number }
{
    match number {
        None => 255,
        Some(number) => number as u8,
    }
}

/// The number of such a byte, none for 255.
#[inline(always)]
pub fn number_of_byte(byte: u8) -> Option<usize>
    ensures { result ≡ number_of_byte byte }
{
    if byte == 255 {
        None
    } else {
        Some(usize::from(byte))
    }
}
