//! The text of an expression: the filter that it is, or the fault for which it is refused.
ghost use Rattle.std.specs.Prelude.{◌≡◌, ◌≤◌, ◌^◌, length, IfOk, IfErr};
ghost use Rattle.ax_format.specs.Plain.{catalogue_tree};
ghost use Rattle.ax_filter.specs.OfCode.{expression, catalogue_of};
ghost use Rattle.ax_expressions.specs.Texts.{IsFilterText, IsStopped};

use crate::filter::Filter;
use crate::reading::read_filter;
use ax_check::Catalogue;
use ax_expressions::FilterStop;
use ax_tokens::tokens;
use std::alloc::Global;

/// The most braces one in another.
const DEEPEST: u32 = 16;

/// The filter that a text of at most 2^31 octets is over a catalogue, or its first fault: an octet or a brace, and after
/// these the token of the smallest number at fault.
#[tactic(auto, using(ax_expressions::proofs::TextStops::text_stops))]
pub fn read_expression<'c>(
    alloc: Global,
    text: &[u8],
    catalogue: &'c Catalogue,
) -> Result<Filter<'c>, FilterStop>
    requires { length text.now ≤ 2 ^ 31 }
    ensures filter { IfOk result (λ filter. IsFilterText (catalogue_tree catalogue.now) text.now (expression filter)) }
    ensures over { IfOk result (λ filter. catalogue_of filter ≡ catalogue_tree catalogue.now) }
    ensures stop { IfErr result (IsStopped (catalogue_tree catalogue.now) text.now) }
{
    let found = tokens(alloc, text, DEEPEST)?;
    let filter = read_filter(alloc, &found, catalogue)?;
    Ok(filter)
}
