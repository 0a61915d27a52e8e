//! The hash of keys and ring points.
ghost use Rattle.std.specs.Prelude.{◌≡◌};
ghost use Rattle.placement.specs.Hash.{hash_of};

/// The hash of no bytes.
const OFFSET_BASIS: u64 = 0xcbf2_9ce4_8422_2325;

/// What the hash is multiplied by after each byte.
const PRIME: u64 = 0x0000_0100_0000_01b3;

/// FNV-1a in 64 bits (Fowler, Noll, Vo). Takes no memory.
pub fn fnv1a64(bytes: &[u8]) -> u64
    ensures { result ≡ hash_of bytes.now }
{
    let mut hash = OFFSET_BASIS;
    for byte in bytes {
        hash = (hash ^ u64::from(*byte)).wrapping_mul(PRIME);
    }
    hash
}
