//! Reads properties texts, one a line in hexadecimal digits, and writes what each says: `Ok` and its written form in
//! digits, or why it is refused and where.
#![tactic(auto)]

use java_props::PropsErr;
use std::alloc::{AllocError, Global};
use std::io;

/// The written form of what a text says, or why it is refused.
fn written_form(alloc: Global, text: &[u8]) -> Result<String, PropsErr> {
    let pairs = java_props::read(alloc, text)?;
    match java_props::write(alloc, &pairs) {
        Ok(written) => Ok(hex::encode(alloc, written.as_slice())?),
        Err(_) => Err(PropsErr::NoMemory),
    }
}

/// The line that is written for a text.
fn answer(alloc: Global, text: &[u8]) -> Result<String, AllocError> {
    Ok(match written_form(alloc, text) {
        Ok(digits) => format!(in alloc; "Ok {digits}")?,
        Err(PropsErr::TooLong { length }) => format!(in alloc; "TooLong {length}")?,
        Err(PropsErr::BadEscape { at }) => format!(in alloc; "BadEscape {at}")?,
        Err(PropsErr::BadSurrogate { at }) => format!(in alloc; "BadSurrogate {at}")?,
        Err(PropsErr::TooMany { at }) => format!(in alloc; "TooMany {at}")?,
        Err(PropsErr::NoMemory) => format!(in alloc; "NoMemory")?,
    })
}

fn main(rt: HostRuntime) -> io::Result<()> {
    for line in rt.lines(rt.alloc()) {
        let line = line?;
        match hex::decode(rt.alloc(), line.as_bytes()) {
            Ok(text) => println!(rt; "{}", answer(rt.alloc(), text.as_slice())?)?,
            Err(_) => println!(rt; "no hexadecimal digits")?,
        }
    }
    Ok(())
}
