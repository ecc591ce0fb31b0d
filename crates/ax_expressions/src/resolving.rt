//! From an expression to its test over a catalogue: each path is resolved to its place.
ghost use Rattle.std.specs.Prelude.{◌≡◌, map, IfOk};
ghost use Rattle.ax_format.specs.Plain.{catalogue_tree};
ghost use Rattle.ax_expressions.specs.Faults.{place_in};
ghost use Rattle.ax_expressions.specs.Meaning.{is_signed};
ghost use Rattle.ax_expressions.specs.Tests.{test_tree, element_at_path, resolved};
ghost use Rattle.ax_expressions.specs.Tree.{expr_tree};

use crate::expr::{Expr, Exprs, FullPath};
use crate::test::{Element, Test, Tests};
use ax_check::Catalogue;
use ax_format::{Content, Fixed, Place, Sign};
use std::alloc::{AllocError, Global};

/// Whether numbers of that content are in two's complement.
fn is_signed(content: &Content) -> bool
    ensures { result ≡ is_signed content.now }
{
    match content {
        Content::Integer(sign) => *sign == Sign::Signed,
        Content::Quantity(scale) => scale.sign == Sign::Signed,
        _ => false,
    }
}

/// The place that a path leads to. None comes exactly where it leads to none.
#[tactic(auto, using(crate::proofs::Resolved::places))]
fn place_of(
    alloc: Global,
    catalogue: &Catalogue,
    path: &FullPath,
) -> Result<Option<Place>, AllocError>
    ensures { IfOk result (λ place. place ≡ place_in (catalogue_tree catalogue.now) path.now) }
{
    match catalogue.get(path.category) {
        Some(accepted) => accepted.resolve(alloc, &path.names),
        None => Ok(None),
    }
}

/// The element that a path leads to. None comes exactly where it leads to none.
#[tactic(auto, using(crate::proofs::Resolved::elements))]
fn element_of(
    alloc: Global,
    catalogue: &Catalogue,
    path: &FullPath,
) -> Result<Option<Element>, AllocError>
    ensures { IfOk result (λ element. element ≡ element_at_path (catalogue_tree catalogue.now) path.now) }
{
    let Some(accepted) = catalogue.get(path.category) else {
        return Ok(None);
    };
    let Some(place) = accepted.resolve(alloc, &path.names)? else {
        return Ok(None);
    };
    match accepted.element(&place) {
        Some(Fixed::Element { width, content }) => Ok(Some(Element {
            place,
            signed: is_signed(content),
            width: *width,
        })),
        _ => Ok(None),
    }
}

/// The tests of expressions, in order.
#[cycle(resolve)]
fn resolve_each(alloc: Global, catalogue: &Catalogue, exprs: &Exprs) -> Result<Tests, AllocError>
    ensures { IfOk result (λ made. map test_tree made ≡ map (λ e. resolved (catalogue_tree catalogue.now) (expr_tree e)) exprs.now) }
{
    let mut made = Tests::new(alloc);
    for expr in exprs.as_slice() {
        made.push(resolve(alloc, catalogue, expr)?)?;
    }
    Ok(made)
}

/// The test of an expression over the catalogue.
#[cycle(resolve)]
#[tactic(auto, using(crate::proofs::Trees::resolving))]
pub fn resolve(alloc: Global, catalogue: &Catalogue, expr: &Expr) -> Result<Test, AllocError>
    ensures { IfOk result (λ made. test_tree made ≡ resolved (catalogue_tree catalogue.now) (expr_tree expr.now)) }
{
    match expr {
        Expr::All(exprs) => Ok(Test::All(resolve_each(alloc, catalogue, exprs)?)),
        Expr::Any(exprs) => Ok(Test::Any(resolve_each(alloc, catalogue, exprs)?)),
        Expr::Not(inner) => Ok(Test::Not(Box::new(alloc, resolve(alloc, catalogue, inner)?)?)),
        Expr::Present { path } => Ok(Test::Present {
            category: path.category,
            place: place_of(alloc, catalogue, path)?,
        }),
        Expr::Is { path, op, number } => Ok(Test::Is {
            category: path.category,
            element: element_of(alloc, catalogue, path)?,
            op: *op,
            number: *number,
        }),
    }
}
