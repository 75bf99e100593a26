//! What the types of texts share.
ghost use Rattle.std.specs.Prelude.{◌≡◌, IfOk};
ghost use Rattle.std.specs.String.{string_bytes};
ghost use Rattle.nx_base.specs.Texts.{name_cmp, same_name};

use crate::name_err::NoMemory;
use std::alloc::Global;
use std::cmp::Ordering;

/// A copy of the text.
pub fn owned(alloc: Global, text: &str) -> Result<String, NoMemory>
    ensures { IfOk result (λ copy. string_bytes copy ≡ text.now) }
{
    String::from_str(alloc, text).map_err(|_| NoMemory)
}

/// Whether the two texts are the same.
pub fn same_text(a: &[u8], b: &[u8]) -> bool
    ensures { result ≡ same_name a.now b.now }
{
    a == b
}

/// The order of two texts, byte by byte.
pub fn compare_texts(a: &[u8], b: &[u8]) -> Ordering
    ensures { result ≡ name_cmp a.now b.now }
{
    a.cmp(&b)
}
