//! How far values reach by their octets alone, as worked examples.
ghost use Rattle.std.specs.Prelude.{◌≡◌, ◌∷◌, []};
ghost use Rattle.ax_codec.specs.Extents.{kind_extent};
ghost use Rattle.ax_codec.specs.declared.extent.Extent.TheVariants.{ByNode, Occurrences, OctetParts};
ghost use Rattle.ax_format.specs.Tree.{counted, element, explicit, extended, fixed, member_and, no_members, spare};
ghost use Rattle.ax_format.specs.declared.content.Content.TheVariants.{Raw};
ghost use Rattle.ax_format.specs.declared.kind.Counter.TheVariants.{One, Two};
ghost use Rattle.ax_format.specs.declared.kind.LastPart.TheVariants.{WithFx, WithoutFx};

/// A part of seven bits and its FX bit fill an octet, so the first octet with a clear FX bit is the last one. A part of 15 bits ends
/// that, wherever it stands, and so does a last part without an FX bit.
pub fn extents_of_parts()
    ensures two { kind_extent (extended WithFx (member_and (spare 7) no_members ∷ member_and (spare 7) no_members ∷ [])) ≡ OctetParts 2 }
    ensures wide { kind_extent (extended WithFx (member_and (spare 15) no_members ∷ member_and (spare 7) no_members ∷ [])) ≡ ByNode }
    ensures then_wide { kind_extent (extended WithFx (member_and (spare 7) no_members ∷ member_and (spare 15) no_members ∷ [])) ≡ OctetParts 1 }
    ensures closed { kind_extent (extended WithoutFx (member_and (spare 7) no_members ∷ member_and (spare 8) no_members ∷ [])) ≡ OctetParts 1 }
{}

/// Occurrences of whole octets after a counter of one octet are so many times these. Those after a counter of two octets, of other kinds
/// and values that aren't counted are told by their nodes.
pub fn extents_of_occurrences()
    ensures three { kind_extent (counted One (fixed (element 24 Raw))) ≡ Occurrences 3 }
    ensures two_octets { kind_extent (counted Two (fixed (element 24 Raw))) ≡ ByNode }
    ensures half_octets { kind_extent (counted One (fixed (element 12 Raw))) ≡ ByNode }
    ensures explicit { kind_extent (counted One explicit) ≡ ByNode }
    ensures alone { kind_extent (fixed (element 24 Raw)) ≡ ByNode }
{}
