//! Java's hash.
ghost use Rattle.std.specs.Prelude.{◌≡◌, ◌≤◌};
ghost use Rattle.blob_paths.specs.Hash.{java_hash_of, tier_of};

/// Java's hash of a text of ASCII, as `String.hashCode` gives it. It takes no memory.
pub fn java_hash(text: &[u8]) -> i32
    ensures { result ≡ java_hash_of text.now }
{
    let mut hash = 0i32;
    for byte in text {
        hash = hash.wrapping_mul(31).wrapping_add(i32::from(*byte));
    }
    hash
}

/// The volume, 1 to 43, and the chapter, 1 to 47, of a text. It takes no memory.
pub fn tier(text: &[u8]) -> (u32, u32)
    ensures tier { result ≡ tier_of text.now }
    ensures volume { (1 ≤ result.0) × (result.0 ≤ 43) }
    ensures chapter { (1 ≤ result.1) × (result.1 ≤ 47) }
{
    let hash = java_hash(text);
    (
        (hash % 43).unsigned_abs() + 1,
        (hash % 47).unsigned_abs() + 1,
    )
}
