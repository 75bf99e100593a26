//! From properties to pairs.
ghost use Rattle.std.specs.Prelude.{ℕ, slice_index, ◌≡◌, ◌↔◌, ◌+◌, ◌<◌, ◌≤◌, length, codes, decimal, string_bytes, Ok, IfOk, OnOk, IsErrOf, is_some, if◌then◌else◌};
ghost use Rattle.hex.specs.Hex.{encode_lower};
ghost use Rattle.java_props.specs.Kept.{put};
ghost use Rattle.blob_properties.specs.declared.to_pairs_err.ToPairsErr.TheVariants as refused;
ghost use Rattle.blob_properties.specs.Props.{IsProps};
ghost use Rattle.blob_properties.specs.FromPairs.{props_of};
ghost use Rattle.blob_properties.specs.ToPairs.{plain_entries, marked_entries, entries_of};

use crate::blob_props::BlobProps;
use crate::own_keys;
use crate::to_pairs_err::ToPairsErr;
use java_props::{MOST_PAIRS, Pairs, SetErr};
use nx_base::NoMemory;
use std::alloc::Global;

/// How many pairs there are beside the other ones, without a mark and with one.
const PLAIN_PAIRS: usize = 6;

const MARKED_PAIRS: usize = 9;

/// Sets the value of a key, where there is room for one more.
pub fn put(pairs: &mut Pairs, key: &str, value: &str) -> Result<(), NoMemory>
    requires { length pairs.old < 256 }
    ensures set { OnOk result (pairs.new ≡ put key.now value.now pairs.old) }
    ensures room { length pairs.new ≤ length pairs.old + 1 }
{
    match pairs.set(key, value) {
        Ok(()) => Ok(()),
        Err(SetErr::NoMemory) => Err(NoMemory),
        Err(SetErr::Full) => unreachable!(),
    }
}

/// The same pairs.
fn copied(alloc: Global, pairs: &Pairs) -> Result<Pairs, NoMemory>
    ensures { IfOk result (λ copy. copy ≡ pairs.now) }
{
    let mut copy = Pairs::new(alloc);
    for at in 0..pairs.len() {
        let Some((key, value)) = pairs.pair(at) else {
            unreachable!();
        };
        put(&mut copy, key, value)?;
    }
    Ok(copy)
}

/// The text of a number, without leading zeros.
pub fn number_text(alloc: Global, number: u64) -> Result<String, NoMemory>
    ensures { IfOk result (λ text. string_bytes text ≡ decimal number) }
{
    match format!(in alloc; "{number}") {
        Ok(text) => Ok(text),
        Err(_) => Err(NoMemory),
    }
}

/// The text of a digest, in lower case.
fn sha1_text(alloc: Global, sha1: [u8; 20]) -> Result<String, NoMemory>
    ensures text { IfOk result (λ text. string_bytes text ≡ encode_lower sha1) }
    ensures length { length sha1 ≡ 20 }
    ensures bytes { (at : ℕ) → slice_index sha1 at < 256 }
{
    match hex::encode(alloc, sha1) {
        Ok(text) => Ok(text),
        Err(_) => Err(NoMemory),
    }
}

/// The pairs without a mark.
#[tactic(auto, unfolding(crate::specs::ToPairs::plain_entries))]
pub fn plain_pairs(alloc: Global, props: &BlobProps) -> Result<Pairs, NoMemory>
    requires { length props.now.others + 6 ≤ 256 }
    ensures pairs { IfOk result (λ pairs. pairs ≡ plain_entries props.now) }
    ensures room { IfOk result (λ pairs. length pairs ≤ length props.now.others + 6) }
    ensures blob { OnOk result (IsProps props.now) }
{
    let timestamp = number_text(alloc, props.timestamp)?;
    let sha1 = sha1_text(alloc, props.sha1)?;
    let size = number_text(alloc, props.size)?;
    let mut pairs = copied(alloc, &props.others)?;
    put(&mut pairs, own_keys::PATH, props.key.path.as_str())?;
    put(
        &mut pairs,
        own_keys::CONTENT_TYPE,
        props.content_type.as_str(),
    )?;
    put(&mut pairs, own_keys::REPO, props.key.repo.as_str())?;
    put(&mut pairs, own_keys::STAMP, timestamp.as_str())?;
    put(&mut pairs, own_keys::SHA1, sha1.as_str())?;
    put(&mut pairs, own_keys::SIZE, size.as_str())?;
    Ok(pairs)
}

/// Sets the three pairs of a mark.
#[tactic(auto, unfolding(crate::specs::ToPairs::marked_entries))]
pub fn put_mark(pairs: &mut Pairs, date: &str, reason: &str) -> Result<(), NoMemory>
    requires { length pairs.old + 3 ≤ 256 }
    ensures { OnOk result (pairs.new ≡ marked_entries date.now reason.now pairs.old) }
{
    put(pairs, own_keys::DELETED, "true")?;
    put(pairs, own_keys::DATE, date)?;
    put(pairs, own_keys::REASON, reason)
}

/// How many pairs there are beside the other ones.
fn own_pairs(props: &BlobProps) -> usize
    ensures { result ≡ (if is_some props.now.deleted then 9 else 6) }
{
    if props.deleted.is_some() {
        MARKED_PAIRS
    } else {
        PLAIN_PAIRS
    }
}

/// The pairs of a blob's properties, where there is room for them.
fn all_pairs(alloc: Global, props: &BlobProps) -> Result<Pairs, NoMemory>
    requires { length props.now.others + (if is_some props.now.deleted then 9 else 6) ≤ 256 }
    ensures pairs { IfOk result (λ pairs. pairs ≡ entries_of props.now) }
    ensures blob { OnOk result (IsProps props.now) }
{
    let mut pairs = plain_pairs(alloc, props)?;
    if let Some(deleted) = &props.deleted {
        let date = number_text(alloc, deleted.at)?;
        put_mark(&mut pairs, date.as_str(), deleted.reason.as_str())?;
    }
    Ok(pairs)
}

/// The pairs of a blob's properties: [`crate::of_pairs`] gives the properties back from them.
pub fn to_pairs(alloc: Global, props: &BlobProps) -> Result<Pairs, ToPairsErr>
    ensures pairs { IfOk result (λ pairs. pairs ≡ entries_of props.now) }
    ensures full { IsErrOf result refused.Full ↔ (256 < length (entries_of props.now)) }
    ensures back { IfOk result (λ pairs. props_of pairs ≡ Ok props.now) }
{
    if props.others.len() + own_pairs(props) > MOST_PAIRS {
        return Err(ToPairsErr::Full);
    }
    match all_pairs(alloc, props) {
        Ok(pairs) => Ok(pairs),
        Err(NoMemory) => Err(ToPairsErr::NoMemory),
    }
}
