//! The written text of a blob, with a mark and without one.
ghost use Rattle.std.specs.Prelude.{[], ◌≡◌, ◌↔◌, ◌^◌, ◌<◌, ◌≤◌, length, IfOk, IsErrOf};
ghost use Rattle.java_props.specs.Reading.{Reads};
ghost use Rattle.java_props.specs.Writing.{value_text, written};
ghost use Rattle.blob_properties.specs.declared.to_pairs_err.ToPairsErr.TheVariants as refused;
ghost use Rattle.blob_properties.specs.Props.{IsProps, with_mark, without_mark};
ghost use Rattle.blob_properties.specs.Readable.{HasRoom, Readable, marked_text_of, unmarked_text_of};
ghost use Rattle.blob_properties.specs.ToPairs.{plain_entries, marked_entries};

use crate::blob_props::BlobProps;
use crate::pairs::{number_text, plain_pairs, put_mark};
use crate::to_pairs_err::ToPairsErr;
use java_props::Pairs;
use nx_base::NoMemory;
use std::alloc::Global;

/// The most other pairs that leave room for a mark.
pub const MOST_OTHERS: usize = 247;

/// The most other pairs beside those without a mark.
const MOST_UNMARKED: usize = 250;

/// The written form of pairs.
pub fn written_text(alloc: Global, pairs: &Pairs) -> Result<Vec<u8>, NoMemory>
    ensures text { IfOk result (λ text. text.items ≡ written pairs.now) }
    ensures back { IfOk result (λ text. length text.items ≤ 65536 → Reads text.items pairs.now) }
{
    match java_props::write(alloc, pairs) {
        Ok(text) => Ok(text),
        Err(_) => Err(NoMemory),
    }
}

/// The pairs with a mark of that time and reason.
pub fn marked_pairs(
    alloc: Global,
    props: &BlobProps,
    date: &str,
    reason: &str,
) -> Result<Pairs, NoMemory>
    requires { length props.now.others ≤ 247 }
    ensures pairs { IfOk result (λ pairs. pairs ≡ marked_entries date.now reason.now (plain_entries props.now)) }
    ensures blob { IfOk result (λ _. IsProps props.now) }
{
    let mut pairs = plain_pairs(alloc, props)?;
    put_mark(&mut pairs, date, reason)?;
    Ok(pairs)
}

/// The text of a blob that is marked as deleted, for that reason at that time in milliseconds.
///
/// Of a readable blob there is always such a text, and it is readable again and says just that mark, where the reason has at
/// most 100 bytes as it is written.
pub fn marked_text(
    alloc: Global,
    props: &BlobProps,
    reason: &str,
    at: u64,
) -> Result<Vec<u8>, ToPairsErr>
    requires time { at < 2 ^ 48 }
    ensures text { IfOk result (λ text. text.items ≡ marked_text_of props.now reason.now at) }
    ensures full { IsErrOf result refused.Full ↔ (247 < length props.now.others) }
    ensures readable { HasRoom props.now → length (value_text reason.now) ≤ 100
        → IfOk result (λ text. Readable text.items (with_mark props.now reason.now at)) }
{
    if props.others.len() > MOST_OTHERS {
        return Err(ToPairsErr::Full);
    }
    let date = number_text(alloc, at)?;
    let pairs = marked_pairs(alloc, props, date.as_str(), reason)?;
    let text = written_text(alloc, &pairs)?;
    Ok(text)
}

/// The text of a blob that isn't marked.
///
/// Of a readable blob there is always such a text, and it is readable again; so it is of a blob without other pairs.
pub fn unmarked_text(alloc: Global, props: &BlobProps) -> Result<Vec<u8>, ToPairsErr>
    ensures text { IfOk result (λ text. text.items ≡ unmarked_text_of props.now) }
    ensures full { IsErrOf result refused.Full ↔ (250 < length props.now.others) }
    ensures readable { HasRoom props.now → IfOk result (λ text. Readable text.items (without_mark props.now)) }
    ensures own { props.now.others ≡ [] → IfOk result (λ text. Readable text.items (without_mark props.now)) }
{
    if props.others.len() > MOST_UNMARKED {
        return Err(ToPairsErr::Full);
    }
    let pairs = plain_pairs(alloc, props)?;
    let text = written_text(alloc, &pairs)?;
    Ok(text)
}
