//! From pairs to properties.
ghost use Rattle.std.specs.Prelude.{◌≡◌, ◌^◌, ◌<◌, if◌then◌else◌, length, Option, Some, Result, unwrap_or, option_and_then, false, IfOk, OnOk};
ghost use Rattle.std.specs.Result.{result_ok};
ghost use Rattle.nx_base.specs.Given.{given};
ghost use Rattle.nx_base.specs.NameErr.{Gives as NameGives};
ghost use Rattle.nx_base.specs.declared.name_err.NameErr.{NameErr};
ghost use Rattle.java_props.specs.Kept.{put, value_of};
ghost use Rattle.blob_properties.specs.Keys.{path_key, type_key, repo_key, timestamp_key, sha1_key, size_key, deleted_key, date_key, is_own_key, others_of};
ghost use Rattle.blob_properties.specs.Props.{IsMarkInRange, AreOthers};
ghost use Rattle.blob_properties.specs.Values.{time_of, size_of, sha1_of, path_in, type_in, repo_in, says_true};
ghost use Rattle.blob_properties.specs.FromPairs.{Gives, meant, required, mark_of, props_of};

use crate::blob_props::BlobProps;
use crate::blob_props_err::BlobPropsErr;
use crate::deleted::Deleted;
use crate::pairs::put;
use crate::reason::Reason;
use crate::{own_keys, values};
use java_props::Pairs;
use nx_base::{AssetPath, ContentType, Key, NameErr, NoMemory, RepoName};
use std::alloc::Global;

/// Times are below this.
const TIMES_END: u64 = 1 << 48;

/// Sizes are below this.
const SIZES_END: u64 = 1 << 63;

/// What the value of a key means, as its reader answered.
fn meant<T: Drop>(key: &'static str, read: Result<T, NameErr>) -> Result<T, BlobPropsErr>
    ensures { (wanted : Result T NameErr) → NameGives wanted read → Gives (meant key.now (result_ok wanted)) result }
{
    match read {
        Ok(value) => Ok(value),
        Err(NameErr::NoMemory) => Err(BlobPropsErr::NoMemory),
        Err(_) => Err(BlobPropsErr::BadValue { key }),
    }
}

/// The path of the asset.
fn path(alloc: Global, pairs: &Pairs) -> Result<AssetPath, BlobPropsErr>
    ensures { Gives (required path_key path_in pairs.now) result }
{
    let key = own_keys::PATH;
    let Some(text) = pairs.get(key) else {
        return Err(BlobPropsErr::Missing { key });
    };
    meant(key, AssetPath::parse(alloc, text.as_bytes()))
}

/// The media type of the content.
fn content_type(alloc: Global, pairs: &Pairs) -> Result<ContentType, BlobPropsErr>
    ensures { Gives (required type_key type_in pairs.now) result }
{
    let key = own_keys::CONTENT_TYPE;
    let Some(text) = pairs.get(key) else {
        return Err(BlobPropsErr::Missing { key });
    };
    meant(key, ContentType::parse(alloc, text.as_bytes()))
}

/// The repository of the asset.
fn repo(alloc: Global, pairs: &Pairs) -> Result<RepoName, BlobPropsErr>
    ensures { Gives (required repo_key repo_in pairs.now) result }
{
    let key = own_keys::REPO;
    let Some(text) = pairs.get(key) else {
        return Err(BlobPropsErr::Missing { key });
    };
    meant(key, RepoName::parse(alloc, text.as_bytes()))
}

/// The time at which the blob was made.
fn timestamp(pairs: &Pairs) -> Result<u64, BlobPropsErr>
    ensures value { Gives (required timestamp_key time_of pairs.now) result }
    ensures range { IfOk result (λ n. n < 2 ^ 48) }
{
    let key = own_keys::STAMP;
    let Some(text) = pairs.get(key) else {
        return Err(BlobPropsErr::Missing { key });
    };
    match values::number(text, 15, TIMES_END) {
        Some(timestamp) => Ok(timestamp),
        None => Err(BlobPropsErr::BadValue { key }),
    }
}

/// The length of the content.
fn size(pairs: &Pairs) -> Result<u64, BlobPropsErr>
    ensures value { Gives (required size_key size_of pairs.now) result }
    ensures range { IfOk result (λ n. n < 2 ^ 63) }
{
    let key = own_keys::SIZE;
    let Some(text) = pairs.get(key) else {
        return Err(BlobPropsErr::Missing { key });
    };
    match values::number(text, 19, SIZES_END) {
        Some(size) => Ok(size),
        None => Err(BlobPropsErr::BadValue { key }),
    }
}

/// The digest of the content.
fn sha1(pairs: &Pairs) -> Result<[u8; 20], BlobPropsErr>
    ensures { Gives (required sha1_key sha1_of pairs.now) result }
{
    let key = own_keys::SHA1;
    let Some(text) = pairs.get(key) else {
        return Err(BlobPropsErr::Missing { key });
    };
    match values::sha1(text) {
        Some(sha1) => Ok(sha1),
        None => Err(BlobPropsErr::BadValue { key }),
    }
}

/// The time of the mark, or 0.
fn date(pairs: &Pairs) -> u64
    ensures value { result ≡ unwrap_or (option_and_then time_of (value_of date_key pairs.now)) 0 }
    ensures range { result < 2 ^ 48 }
{
    match pairs.get(own_keys::DATE) {
        Some(text) => values::number(text, 15, TIMES_END).unwrap_or(0),
        None => 0,
    }
}

/// Whether there is a mark.
fn is_marked(pairs: &Pairs) -> bool
    ensures { result ≡ given (value_of deleted_key pairs.now) false says_true }
{
    match pairs.get(own_keys::DELETED) {
        Some(text) => values::says_true(text),
        None => false,
    }
}

/// The mark, if there is one.
#[tactic(auto, unfolding(crate::specs::FromPairs::mark_of))]
fn mark(alloc: Global, pairs: &Pairs) -> Result<Option<Deleted>, NoMemory>
    ensures value { IfOk result (λ mark. mark ≡ mark_of pairs.now) }
    ensures range { IfOk result (λ mark. IsMarkInRange mark) }
{
    if !is_marked(pairs) {
        return Ok(None);
    }
    let reason = Reason::new(alloc, pairs.get(own_keys::REASON).unwrap_or(""))?;
    Ok(Some(Deleted {
        reason,
        at: date(pairs),
    }))
}

/// Sets the value of a key, unless it is one of the nine.
fn put_other(others: &mut Pairs, key: &str, value: &str) -> Result<(), NoMemory>
    requires { length others.old < 256 }
    ensures { OnOk result (others.new ≡ (if is_own_key key.now then others.old else put key.now value.now others.old)) }
{
    if own_keys::is_own_key(key) {
        return Ok(());
    }
    put(others, key, value)
}

/// The pairs of the keys that have no meaning.
fn others(alloc: Global, pairs: &Pairs) -> Result<Pairs, NoMemory>
    ensures value { IfOk result (λ others. others ≡ others_of pairs.now) }
    ensures foreign { IfOk result AreOthers }
{
    let mut others = Pairs::new(alloc);
    for at in 0..pairs.len() {
        let Some((key, value)) = pairs.pair(at) else {
            unreachable!();
        };
        put_other(&mut others, key, value)?;
    }
    Ok(others)
}

/// The properties that pairs give. The first of the six required keys, in byte order, that is missing or has a bad value is
/// the refusal.
#[tactic(auto, unfolding(crate::specs::FromPairs::props_of))]
pub fn of_pairs(alloc: Global, pairs: &Pairs) -> Result<BlobProps, BlobPropsErr>
    ensures { Gives (props_of pairs.now) result }
{
    let path = path(alloc, pairs)?;
    let content_type = content_type(alloc, pairs)?;
    let repo = repo(alloc, pairs)?;
    let timestamp = timestamp(pairs)?;
    let sha1 = sha1(pairs)?;
    let size = size(pairs)?;
    let Ok(deleted) = mark(alloc, pairs) else {
        return Err(BlobPropsErr::NoMemory);
    };
    let Ok(others) = others(alloc, pairs) else {
        return Err(BlobPropsErr::NoMemory);
    };
    Ok(BlobProps {
        key: Key { repo, path },
        content_type,
        size,
        sha1,
        timestamp,
        deleted,
        others,
    })
}
