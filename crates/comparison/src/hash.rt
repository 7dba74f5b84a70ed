// The hash by which long contents are compared.
ghost use Rattle.std.specs.Prelude.{◌≡◌, ℕ};
ghost use Rattle.std.specs.Int.{to_be_bytes, w16};
ghost use Rattle.comparison.specs.Hashes.{hashed, bytes_of_shorts};

// The hash of no bytes.
pub(crate) const OF_NOTHING: u64 = 14695981039346656037;

// The hash of some bytes, after those that gave the hash `before`.
pub(crate) fn hash_on(before: u64, bytes: &[u8]) -> u64
    ensures { result ≡ hashed before bytes.now }
{
    bytes.iter().fold(
        before,
        |hash, byte| (hash ^ u64::from(*byte)).wrapping_mul(1099511628211),
    )
}

// The hash of a number of 16 bits, its highest byte first, after what gave the hash `before`.
pub(crate) fn hash_short(before: u64, number: u16) -> u64
    ensures { result ≡ hashed before (to_be_bytes w16 number) }
{
    hash_on(before, &number.to_be_bytes())
}

// The hash of numbers of 16 bits one after another, after what gave the hash `before`.
pub(crate) fn hash_shorts(before: u64, numbers: &[u16]) -> u64
    ensures { result ≡ hashed before (bytes_of_shorts numbers.now) }
{
    numbers.iter().copied().fold(before, hash_short)
}
