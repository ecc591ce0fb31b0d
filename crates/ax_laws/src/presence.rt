//! Where something stands in a record. The function stands for what its contract says.
ghost use Rattle.std.specs.Prelude.{◌≡◌, ℕ, nat_lt, ◌&&◌, false, List, [], ◌∷◌, ◌++◌, Some, None};
ghost use Rattle.ax_laws.specs.MemberPlaces.{below, standing, member_count, nth_part};
ghost use Rattle.ax_format.specs.At.{is_present, slot_value};
ghost use Rattle.ax_format.specs.Fitting.{list_count};
ghost use Rattle.ax_format.specs.Shape.{MembersShape, PartsShape};
ghost use Rattle.ax_format.specs.Tree.{MembersTree, member_values, part_values, ValuesTree, ListsTree, EntriesTree};
ghost use Rattle.ax_format.specs.declared.place.Place.{Place};

/// The members of a group are present where the group is, and those of a part of an extended item where the item has that part. Of
/// an item that isn't marked nothing is present.
pub fn members_are_present_with_their_item()
    ensures group { (entries : EntriesTree) (place : Place) (i : ℕ) (ms : MembersTree) (vs : ValuesTree) → MembersShape ms vs
        → standing entries place ≡ Some (member_values vs)
        → is_present entries (below place (i ∷ [])) ≡ nat_lt i (member_count ms) }
    ensures part { (entries : EntriesTree) (place : Place) (p i : ℕ) (ps : List MembersTree) (ls : ListsTree) → PartsShape ps ls
        → standing entries place ≡ Some (part_values ls)
        → is_present entries (below place (p ∷ i ∷ [])) ≡ nat_lt p (list_count ls) && nat_lt i (member_count (nth_part p ps)) }
    ensures absent { (entries : EntriesTree) (place : Place) → slot_value place.frn entries ≡ None
        → is_present entries place ≡ false }
{}
