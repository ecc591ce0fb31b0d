//! From tokens to a filter, and what it says of a record.
ghost use Rattle.std.specs.Prelude.{◌≡◌, ◌≤◌, length, IfOk, IfErr, OnOk};
ghost use Rattle.ax_format.specs.Plain.{catalogue_tree};
ghost use Rattle.ax_tokens.specs.Stopping.{texts_of};
ghost use Rattle.ax_expressions.specs.Faults.{PathsLead, IsFault};
ghost use Rattle.ax_expressions.specs.Leading.{IsPathFault};
ghost use Rattle.ax_expressions.specs.declared.error.FilterError.TheVariants as Fault;
ghost use Rattle.ax_expressions.specs.Plans.{PlanEach};
ghost use Rattle.ax_filter.specs.OfCode.{expression, catalogue_of};
ghost use Rattle.ax_expressions.specs.FilterTokens.{IsFilterOf};

use crate::filter::Filter;
use ax_check::Catalogue;
use ax_expressions::{
    CategoryPlans, Expr, ExprSyntaxError, FEW, FilterError, Numbering, PathFault, Test,
    asking_in_all, count_tests, first_fault, plan_categories, read_expr, resolve,
};
use ax_tokens::Tokens;
use std::alloc::{AllocError, Global};

/// Judges the paths before the token of that number.
fn judge_paths(
    alloc: Global,
    tokens: &Tokens<'_>,
    end: u32,
    catalogue: &Catalogue,
) -> Result<(), FilterError>
    requires { end ≤ length tokens.now }
    ensures lead { OnOk result (PathsLead (catalogue_tree catalogue.now) (texts_of tokens.now) end) }
    ensures fault { IfErr result (IsPathFault (catalogue_tree catalogue.now) (texts_of tokens.now) end) }
{
    match first_fault(alloc, tokens, end, catalogue)? {
        None => Ok(()),
        Some(PathFault::Unknown { token }) => Err(FilterError::UnknownPath { token }),
        Some(PathFault::NoElement { token }) => Err(FilterError::NotAnElement { token }),
    }
}

/// What a test with so many in it asks of the records of each category, where that is of use: none where there are few tests and no two
/// of them ask the same.
fn plans_for(
    alloc: Global,
    test: &Test,
    count: u32,
    numbering: &mut Numbering,
) -> Result<CategoryPlans, AllocError>
    ensures { IfOk result (λ made. PlanEach numbering.new.questions made test.now) }
{
    if count == 1 {
        return Ok(CategoryPlans::new(alloc));
    }
    let plans = plan_categories(alloc, test, numbering)?;
    if count > FEW || asking_in_all(&plans) > numbering.questions.count() {
        Ok(plans)
    } else {
        Ok(CategoryPlans::new(alloc))
    }
}

/// The filter of an expression over a catalogue.
#[tactic(auto, using(crate::proofs::Truth::same_truth))]
fn filter_of<'c>(
    alloc: Global,
    expr: Expr,
    catalogue: &'c Catalogue,
) -> Result<Filter<'c>, FilterError>
    ensures expression { IfOk result (λ filter. filter.expr ≡ expr) }
    ensures over { IfOk result (λ filter. filter.catalogue.now ≡ catalogue.now) }
    ensures memory { IfErr result (λ e. e ≡ Fault.OutOfMemory) }
{
    let test = resolve(alloc, catalogue, &expr)?;
    let count = count_tests(&test);
    let mut numbering = Numbering::new(alloc);
    let plans = plans_for(alloc, &test, count, &mut numbering)?;
    Ok(Filter {
        expr,
        catalogue,
        test,
        count,
        questions: numbering.questions,
        plans,
    })
}

/// The filter that the tokens spell over a catalogue. Else the fault of the smallest token number: BadToken names the
/// first token through which no expression begins, UnknownPath and NotAnElement a path before it.
#[tactic(auto, using(ax_expressions::proofs::Whole::filters))]
pub fn read_filter<'c>(
    alloc: Global,
    tokens: &Tokens<'_>,
    catalogue: &'c Catalogue,
) -> Result<Filter<'c>, FilterError>
    ensures spells { IfOk result (λ filter. IsFilterOf (catalogue_tree catalogue.now) tokens.now (expression filter)) }
    ensures over { IfOk result (λ filter. catalogue_of filter ≡ catalogue_tree catalogue.now) }
    ensures fault { IfErr result (IsFault (catalogue_tree catalogue.now) (texts_of tokens.now)) }
{
    match read_expr(alloc, tokens) {
        Ok(expr) => {
            judge_paths(alloc, tokens, tokens.count(), catalogue)?;
            filter_of(alloc, expr, catalogue)
        }
        Err(ExprSyntaxError::BadToken { token }) => {
            judge_paths(alloc, tokens, token, catalogue)?;
            Err(FilterError::BadToken { token })
        }
        Err(ExprSyntaxError::OutOfMemory) => Err(FilterError::OutOfMemory),
    }
}
