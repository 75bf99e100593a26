ghost use Rattle.std.specs.Prelude.{◌≡◌, Result};
ghost use Rattle.percent_encoding.specs.Percent.{percent_decode};
ghost use Rattle.nx_base.specs.NameErr.{Gives};
ghost use Rattle.nx_base.specs.declared.name_err.NameErr.{NameErr};
ghost use Rattle.nx_base.specs.Paths.{path_of};
ghost use Rattle.http_heads.specs.Target.{text_before, text_behind, or_bad_path, named_key, key_of};
ghost use Rattle.http_heads.specs.Gives.{GivesOr};

use crate::head_err::HeadErr;
use crate::words::place_of;
use nx_base::{AssetPath, Key, NameErr, RepoName};
use percent_encoding::percent_decode;
use std::alloc::Global;

const ROOT: &[u8; 12] = b"/repository/";

// What stands before the first byte of that value.
fn before(text: &[u8], byte: u8) -> &[u8]
    ensures { result.now ≡ text_before byte text.now }
{
    &text[..place_of(text, byte)]
}

// What stands behind it.
fn behind(text: &[u8], byte: u8) -> &[u8]
    ensures { result.now ≡ text_behind byte text.now }
{
    let at = place_of(text, byte);
    if at == text.len() {
        return &text[at..];
    }
    &text[at + 1..]
}

// A name or a path that was read; no other refusal than `BadPath` comes of it.
fn or_bad_path<T: Drop>(read: Result<T, NameErr>) -> Result<T, HeadErr>
    ensures { (wanted : Result T NameErr) → Gives wanted read → GivesOr (or_bad_path wanted) result }
{
    match read {
        Ok(name) => Ok(name),
        Err(NameErr::NoMemory) => Err(HeadErr::NoMemory),
        Err(_) => Err(HeadErr::BadPath),
    }
}

// The path that percent-encoded bytes name, decoded once.
fn read_path(alloc: Global, text: &[u8]) -> Result<AssetPath, HeadErr>
    ensures { GivesOr (or_bad_path (path_of (percent_decode text.now))) result }
{
    let mut decoded = Vec::new(alloc);
    match percent_decode(text).append_to(&mut decoded) {
        Ok(()) => or_bad_path(AssetPath::parse(alloc, &decoded)),
        Err(_) => Err(HeadErr::NoMemory),
    }
}

// The key that stands behind `/repository/`.
#[tactic(auto, unfolding(crate::specs::Target::named_key))]
fn read_key(alloc: Global, text: &[u8]) -> Result<Key, HeadErr>
    ensures { GivesOr (named_key text.now) result }
{
    let repo = or_bad_path(RepoName::parse(alloc, before(text, b'/')))?;
    let path = read_path(alloc, behind(text, b'/'))?;
    Ok(Key { repo, path })
}

/// The key that a target names.
#[tactic(auto, unfolding(crate::specs::Target::key_of))]
pub(crate) fn read_target(alloc: Global, target: &[u8]) -> Result<Key, HeadErr>
    ensures { GivesOr (key_of target.now) result }
{
    let path = before(target, b'?');
    if !path.starts_with(ROOT) {
        return Err(HeadErr::BadPath);
    }
    read_key(alloc, &path[ROOT.len()..])
}
