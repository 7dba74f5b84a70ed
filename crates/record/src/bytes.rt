// Numbers among bytes, highest byte first.
ghost use Rattle.std.specs.Prelude.{◌≡◌, ◌%◌, ◌^◌, ◌<◌, ◌≤◌, length};
ghost use Rattle.std.specs.Int.Digits.{number_from_digits};
ghost use Rattle.record.specs.Bytes.{number_in};

// The number that the bytes say, the highest byte first. Of more than eight bytes the last eight count.
pub fn big_endian(bytes: &[u8]) -> u64
    ensures value { result ≡ number_from_digits 256 bytes.now % 2 ^ 64 }
    ensures narrow { length bytes.now ≤ 8 → (result ≡ number_from_digits 256 bytes.now) × (result < 256 ^ length bytes.now) }
{
    bytes.iter().fold(0, |n, byte| {
        n.wrapping_mul(256).wrapping_add(u64::from(*byte))
    })
}

// The number that `width` bytes say from byte `at` on, as far as there are bytes.
pub fn number_at(bytes: &[u8], at: usize, width: usize) -> u64
    ensures value { result ≡ number_in at width bytes.now % 2 ^ 64 }
    ensures narrow { width ≤ 8 → (result ≡ number_in at width bytes.now) × (result < 256 ^ width) }
{
    let rest = &bytes[at.min(bytes.len())..];
    big_endian(&rest[..width.min(rest.len())])
}
