//! Worked examples of the lines. Each function stands for what its contract says.
ghost use Rattle.std.specs.Prelude.{◌≡◌, codes, Some, None};
ghost use Rattle.ax_expand.specs.Examples.{one_octet, by_fx};
ghost use Rattle.ax_expand.specs.declared.fault.ContentCause.TheVariants.{TrailingOctets};
ghost use Rattle.ax_expand_work.specs.ExpandCommand.{re_frn};
ghost use Rattle.ax_laws.specs.ExpandedExamples.{of_re, without_re, re_unused};
ghost use Rattle.ax_expand_work.specs.Lines.{re_line, unread_line};
ghost use Rattle.ax_format.specs.Tree.{explicit, fixed, element, number, marked, no_entries, entry_and};
ghost use Rattle.ax_format.specs.declared.content.Content.TheVariants.{Raw};

/// The slot of the UAP with an item RE of kind explicit: not one of another kind, and not an item that the UAP doesn't use.
pub fn where_re_stands()
    ensures second { re_frn (of_re explicit) ≡ Some 2 }
    ensures other_kind { re_frn (of_re (fixed (element 8 Raw))) ≡ None }
    ensures no_item { re_frn without_re ≡ None }
    ensures unused { re_frn re_unused ≡ None }
{}

/// The lines of two contents that are read, by either form, and of one that is not.
#[tactic(auto, using(crate::proofs::WorkedLines::worked))]
pub fn lines_of_contents()
    ensures read { re_line one_octet 3 1 (marked (entry_and 1 (number 5) no_entries)) ≡ codes "re block 3 record 1 \"8005\" record { RE { A 5 } }\n" }
    ensures by_fx { re_line by_fx 0 2 (marked (entry_and 8 (number 5) no_entries)) ≡ codes "re block 0 record 2 \"018005\" record { RE { B 5 } }\n" }
    ensures unread { unread_line 3 1 16 TrailingOctets ≡ codes "unread block 3 record 1 bit 16 TrailingOctets\n" }
{}
