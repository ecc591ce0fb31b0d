//! Paths among tokens that lead nowhere.
ghost use Rattle.std.specs.Prelude.{◌≡◌, ◌≤◌, ◌↔◌, length, IfOk};
ghost use Rattle.ax_format.specs.Plain.{catalogue_tree};
ghost use Rattle.ax_tokens.specs.Stopping.{texts_of};
ghost use Rattle.ax_expressions.specs.Leading.{IsLeading, TellsFault, TellsFirstFault};

use crate::paths::path_of;
use ax_check::Catalogue;
use ax_tokens::Tokens;
use std::alloc::{AllocError, Global};

/// Where a text leads as a path.
#[derive(Clone, Copy)]
pub enum Lead {
    /// It is no path.
    NoPath,
    /// Its category has no specification, or its names are no place of it.
    Nowhere,
    /// To a place that isn't an element.
    ToOther,
    ToElement,
}

/// Where the text leads over the catalogue.
#[tactic(auto, using(crate::proofs::Leads::leads))]
fn lead_of(alloc: Global, text: &[u8], catalogue: &Catalogue) -> Result<Lead, AllocError>
    ensures { IfOk result (IsLeading (catalogue_tree catalogue.now) text.now) }
{
    let Some(path) = path_of(alloc, text)? else {
        return Ok(Lead::NoPath);
    };
    let Some(accepted) = catalogue.get(path.category) else {
        return Ok(Lead::Nowhere);
    };
    let Some(place) = accepted.resolve(alloc, &path.names)? else {
        return Ok(Lead::Nowhere);
    };
    match accepted.element(&place) {
        Some(_) => Ok(Lead::ToElement),
        None => Ok(Lead::ToOther),
    }
}

/// A token that is a path and leads nowhere, or after `is` to no element.
#[derive(Clone, Copy)]
pub enum PathFault {
    Unknown { token: u32 },
    NoElement { token: u32 },
}

/// The fault of a token, which stands after `is` or not.
#[tactic(auto, using(crate::proofs::Leads::tokens))]
fn fault_of(
    alloc: Global,
    text: &[u8],
    after_is: bool,
    token: u32,
    catalogue: &Catalogue,
) -> Result<Option<PathFault>, AllocError>
    ensures { IfOk result (TellsFault (catalogue_tree catalogue.now) text.now after_is token) }
{
    match lead_of(alloc, text, catalogue)? {
        Lead::NoPath => Ok(None),
        Lead::ToElement => Ok(None),
        Lead::Nowhere => Ok(Some(PathFault::Unknown { token })),
        Lead::ToOther => {
            if after_is {
                Ok(Some(PathFault::NoElement { token }))
            } else {
                Ok(None)
            }
        }
    }
}

/// The first of the tokens before that number that is a path and leads nowhere, or after `is` to no element.
#[tactic(auto, using(crate::proofs::Leads::walks))]
pub fn first_fault(
    alloc: Global,
    tokens: &Tokens<'_>,
    end: u32,
    catalogue: &Catalogue,
) -> Result<Option<PathFault>, AllocError>
    requires { end ≤ length tokens.now }
    ensures { IfOk result (TellsFirstFault (catalogue_tree catalogue.now) (texts_of tokens.now) end) }
{
    let mut after_is = false;
    for number in 0..end {
        let Some(token) = tokens.get(number) else {
            return Ok(None);
        };
        let fault = fault_of(alloc, token.text, after_is, number, catalogue)?;
        if fault.is_some() {
            return Ok(fault);
        }
        after_is = token.text == b"is".as_slice();
    }
    Ok(None)
}
