//! Reading a properties file.
ghost use Rattle.std.specs.Prelude.{◌≡◌, ◌↔◌, None, Ok, IsTrue, IfOk, OnOk};
ghost use Rattle.java_props.specs.declared.PropsErr.TheVariants as unread;
ghost use Rattle.blob_properties.specs.declared.blob_props_err.BlobPropsErr.TheVariants as bad;
ghost use Rattle.blob_properties.specs.FromPairs.{props_of};
ghost use Rattle.blob_properties.specs.Readable.{HasRoom, if_room, readable_of, read_as};

use crate::blob_props::BlobProps;
use crate::blob_props_err::BlobPropsErr;
use crate::props_read::PropsRead;
use crate::required::of_pairs;
use crate::texts::{MOST_OTHERS, marked_pairs, written_text};
use java_props::{LONGEST, Pairs, PropsErr};
use nx_base::NoMemory;
use std::alloc::Global;

/// A time of 15 digits, and a reason of 100 bytes.
const DATE: &str = "999999999999999";

const REASON: &str =
    "xxxxxxxxxxxxxxxxxxxxxxxxxxxxxxxxxxxxxxxxxxxxxxxxxxxxxxxxxxxxxxxxxxxxxxxxxxxxxxxxxxxxxxxxxxxxxxxxxxxx";

/// Whether there is room for a mark.
#[tactic(auto, unfolding(crate::specs::Readable::longest_text))]
fn has_room(alloc: Global, props: &BlobProps) -> Result<bool, NoMemory>
    ensures { IfOk result (λ room. IsTrue room ↔ HasRoom props.now) }
{
    if props.others.len() > MOST_OTHERS {
        return Ok(false);
    }
    let pairs = marked_pairs(alloc, props, DATE, REASON)?;
    let text = written_text(alloc, &pairs)?;
    Ok(text.len() <= LONGEST)
}

/// The properties, where there is room for a mark.
fn with_room(alloc: Global, props: BlobProps) -> Result<PropsRead, NoMemory>
    ensures { IfOk result (λ read. read_as read ≡ if_room (Ok props)) }
{
    if has_room(alloc, &props)? {
        Ok(PropsRead::Good(props))
    } else {
        Ok(PropsRead::Unreadable)
    }
}

/// A text that is refused isn't readable.
fn of_refused(refusal: PropsErr) -> Result<PropsRead, NoMemory>
    ensures unreadable { IfOk result (λ read. read_as read ≡ None) }
    ensures memory { OnOk result (refusal ≡ unread.NoMemory → ⊥) }
{
    match refusal {
        PropsErr::NoMemory => Err(NoMemory),
        _ => Ok(PropsRead::Unreadable),
    }
}

/// And neither is one whose pairs give no properties.
fn of_bad(refusal: BlobPropsErr) -> Result<PropsRead, NoMemory>
    ensures unreadable { IfOk result (λ read. read_as read ≡ None) }
    ensures memory { OnOk result (refusal ≡ bad.NoMemory → ⊥) }
{
    match refusal {
        BlobPropsErr::NoMemory => Err(NoMemory),
        _ => Ok(PropsRead::Unreadable),
    }
}

/// What pairs say.
fn read_pairs(alloc: Global, pairs: &Pairs) -> Result<PropsRead, NoMemory>
    ensures { IfOk result (λ read. read_as read ≡ if_room (props_of pairs.now)) }
{
    match of_pairs(alloc, pairs) {
        Ok(props) => with_room(alloc, props),
        Err(refusal) => of_bad(refusal),
    }
}

/// Reads the bytes of a properties file: [`PropsRead::Good`] exactly where they are readable.
pub fn read_blob(alloc: Global, bytes: &[u8]) -> Result<PropsRead, NoMemory>
    ensures { IfOk result (λ read. read_as read ≡ readable_of bytes.now) }
{
    match java_props::read(alloc, bytes) {
        Ok(pairs) => read_pairs(alloc, &pairs),
        Err(refusal) => of_refused(refusal),
    }
}
