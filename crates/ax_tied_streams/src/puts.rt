//! Pieces that are written whole, or up to a write that fails.
ghost use Rattle.std.specs.Prelude.{◌≤◌, length, take};
ghost use Rattle.std.specs.Io.KnownBytes.{Appends};
ghost use Rattle.ax_tied_streams.specs.Puts.{HasPut};

use std::io::Write;

/// Which stream the first write that failed was to. After it nothing more is written.
#[derive(Clone, Copy, Debug, PartialEq, Eq)]
pub(crate) enum Failed {
    Output,
    Report,
    /// One to the report, and then one of the octets before all lines.
    Both,
}

/// A write that failed, and how many octets of the lines weren't written then.
#[derive(Clone, Copy)]
pub(crate) struct Stop {
    pub(crate) failed: Failed,
    pub(crate) lost: usize,
}

/// Writes the piece, in as many calls as the writer needs, and answers how many octets it took. No call is made after one that failed
/// or took nothing.
fn put<W: Write>(writer: &mut W, piece: &[u8]) -> usize
    ensures within { result ≤ length piece.now }
    ensures adds { Appends (W.contents writer.old) (W.contents writer.new) (take result piece.now) }
{
    let mut at = 0;
    while at < piece.len() {
        match writer.write(&piece[at..]) {
            Ok(count) if count > 0 => at += count,
            _ => return at,
        }
    }
    at
}

/// Writes the first of the lines, the octets, and the rest of the lines, in this order, up to the first write that fails. Where one of the
/// first lines can't be written, the octets before all lines still are: they belong to blocks without lines, or whose lines are out.
pub(crate) fn put_all<W: Write, P: Write>(
    output: &mut W,
    report: &mut P,
    octets: &[u8],
    lines: &[u8],
    before: usize,
    leading: usize,
) -> Option<Stop>
    requires before_within { before ≤ length octets.now }
    requires leading_within { leading ≤ length lines.now }
    ensures { HasPut result (record {
      output = W.contents output.old;
      output' = W.contents output.new;
      report = P.contents report.old;
      report' = P.contents report.new;
      octets = octets.now;
      lines = lines.now;
      before = before;
      leading = leading;
    }) }
{
    let count = put(report, &lines[..leading]);
    if count < leading {
        let is_whole = put(output, &octets[..before]) == before;
        return Some(Stop {
            failed: if is_whole {
                Failed::Report
            } else {
                Failed::Both
            },
            lost: lines.len() - count,
        });
    }
    if put(output, octets) < octets.len() {
        return Some(Stop {
            failed: Failed::Output,
            lost: lines.len() - leading,
        });
    }
    let count = leading + put(report, &lines[leading..]);
    if count < lines.len() {
        return Some(Stop {
            failed: Failed::Report,
            lost: lines.len() - count,
        });
    }
    None
}
