//! The files that a scenario makes and changes.

ghost use Rattle.std.specs.Prelude.{◌≡◌, ◌++◌, IfOk, OnErr, drop, option_map, take};
ghost use Rattle.hy_cli.specs.CommandLine.{texts_of};
ghost use Rattle.hy_scenarios.specs.Changes.{bytes_in, bytes_of, replaced};

use crate::marks::behind;
use hex::FromHexError;
use std::alloc::{AllocError, Global};

/// The bytes that a step of a new file says.
fn bytes_in(alloc: Global, step: &[u8]) -> Result<Option<Vec<u8>>, AllocError>
    ensures { IfOk result (λ bytes. option_map (λ bytes. bytes.items) bytes ≡ bytes_in step.now) }
{
    if let Some(line) = behind(b'+', step) {
        let mut bytes = line.to_vec(alloc)?;
        bytes.push(b'\n')?;
        return Ok(Some(bytes));
    }
    let Some(digits) = behind(b'%', step) else {
        return Ok(None);
    };
    match hex::decode(alloc, digits) {
        Ok(bytes) => Ok(Some(bytes)),
        Err(FromHexError::OutOfMemory) => Err(AllocError),
        Err(_) => Ok(None),
    }
}

/// The bytes that the steps of a new file say, if each says some.
pub fn bytes_of(alloc: Global, steps: &[&[u8]]) -> Result<Option<Vec<u8>>, AllocError>
    ensures { IfOk result (λ bytes. option_map (λ bytes. bytes.items) bytes ≡ bytes_of (texts_of steps.entry.now)) }
{
    let mut bytes = Vec::new(alloc);
    for step in steps {
        match bytes_in(alloc, step)? {
            Some(more) => bytes.extend_from_slice(&more)?,
            None => return Ok(None),
        }
    }
    Ok(Some(bytes))
}

/// Three texts, one behind another.
fn joined(alloc: Global, first: &[u8], second: &[u8], third: &[u8]) -> Result<Vec<u8>, AllocError>
    ensures { IfOk result (λ text. text.items ≡ (first.now ++ second.now) ++ third.now) }
{
    let mut text = Vec::new(alloc);
    text.extend_from_slice(first)?;
    text.extend_from_slice(second)?;
    text.extend_from_slice(third)?;
    Ok(text)
}

/// A text with the first place where `old` stands changed to `new`, if there is one.
pub fn replaced(
    alloc: Global,
    old: &[u8],
    new: &[u8],
    text: &[u8],
) -> Result<Option<Vec<u8>>, AllocError>
    ensures { IfOk result (λ changed. option_map (λ bytes. bytes.items) changed
        ≡ replaced old.now new.now text.now) }
{
    for place in 0..text.len() {
        let rest = &text[place..];
        if rest.starts_with(old) {
            return Ok(Some(joined(alloc, &text[..place], new, &rest[old.len()..])?));
        }
    }
    Ok(None)
}
