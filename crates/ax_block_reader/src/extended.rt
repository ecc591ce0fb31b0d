//! Values of extended and closed items, and of items that repeat by FX: lists of fixed kinds.
ghost use Rattle.std.specs.Prelude.{◌≡◌, ◌<◌, ◌∷◌, length, map, OnOk};
ghost use Rattle.ax_format.specs.Plain.{fixed_tree, members_tree, part_tree, values_tree, lists_tree};
ghost use Rattle.ax_format.specs.Shape.{MembersShape, PartsShape};
ghost use Rattle.std.specs.List.{AllByRecursion};
ghost use Rattle.ax_text_form.specs.Readable.{FixedReadable, MembersReadable};
ghost use Rattle.ax_block_reader.specs.Continuing.{Gives};
ghost use Rattle.ax_block_reader.specs.Readings.{GivesSome};
ghost use Rattle.ax_block_reader.specs.Languages.{braced_texts, part_texts, parts_texts};

use crate::fixed::{fixed_value, member_values};
use ax_format::{Fixed, Lists, Members, Part, Parts, Values};
use ax_tokens::{Reader, Stopped};
use std::alloc::Global;

/// Members in braces.
fn braced_members(
    alloc: Global,
    reader: &mut Reader<'_, '_>,
    members: &Members,
) -> Result<Values, Stopped>
    requires { MembersReadable (members_tree members.now) }
    ensures gives { Gives values_tree (MembersShape (members_tree members.now)) (braced_texts (members_tree members.now)) result reader.old reader.new }
    ensures moves { OnOk result (length reader.new < length reader.old) }
{
    reader.expect(b"{")?;
    member_values(alloc, reader, members)
}

/// A part: `part` and its members in braces.
fn part_values(alloc: Global, reader: &mut Reader<'_, '_>, part: &Part) -> Result<Values, Stopped>
    requires { MembersReadable (part_tree part.now) }
    ensures gives { Gives values_tree (MembersShape (part_tree part.now)) (part_texts (part_tree part.now)) result reader.old reader.new }
    ensures moves { OnOk result (length reader.new < length reader.old) }
{
    reader.expect(b"part")?;
    braced_members(alloc, reader, &part.members)
}

/// The values of the parts that are present, the first and maybe later ones, and the brace after them.
#[tactic(auto, using(crate::proofs::PartWays::parts_ways))]
pub(crate) fn parts_present(
    alloc: Global,
    reader: &mut Reader<'_, '_>,
    parts: &Parts,
) -> Result<Lists, Stopped>
    requires some { 0 < length parts.now }
    requires readable { AllByRecursion MembersReadable (map part_tree parts.now) }
    ensures gives { Gives lists_tree (PartsShape (map part_tree parts.now)) (parts_texts (map part_tree parts.now)) result reader.old reader.new }
    ensures moves { OnOk result (length reader.new < length reader.old) }
{
    let mut lists = Lists::new(alloc);
    let Some((first, later)) = parts.as_slice().split_first() else {
        return Err(Stopped::Bad);
    };
    let values = part_values(alloc, reader, first)?;
    lists.push(values)?;
    for part in later {
        if reader.takes(b"}")? {
            return Ok(lists);
        }
        let values = part_values(alloc, reader, part)?;
        lists.push(values)?;
    }
    reader.expect(b"}")?;
    Ok(lists)
}

/// One or more values of a fixed kind, and the brace after them.
#[tactic(auto, using(crate::proofs::RunWays::run_ways))]
pub(crate) fn run_values(
    alloc: Global,
    reader: &mut Reader<'_, '_>,
    fixed: &Fixed,
) -> Result<Values, Stopped>
    requires readable { FixedReadable (fixed_tree fixed.now) }
    requires bound { length reader.old < 4294967296 }
    ensures gives { GivesSome (fixed_tree fixed.now) result reader.old reader.new }
    ensures moves { OnOk result (length reader.new < length reader.old) }
{
    let mut values = Values::new(alloc);
    loop {
        let value = fixed_value(alloc, reader, fixed)?;
        values.push(value)?;
        if reader.takes(b"}")? {
            return Ok(values);
        }
    }
}
