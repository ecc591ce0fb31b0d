//! The relation of two editions.
ghost use Rattle.std.specs.Prelude.{◌≡◌};
ghost use Rattle.ax_format.specs.Plain.{spec_tree};
ghost use Rattle.ax_format.specs.Shared.{Common};
ghost use Rattle.ax_format.specs.declared.spec.Spec.{Spec};
ghost use Rattle.ax_relation.specs.Editions.{AreOf, AreOfEditions, shares_path};

use crate::known::Known;
use crate::moves::Moves;
use ax_format::{Path, Place, Text};
use ax_lists::Sequence;

/// A key of the old edition: its text, the number of its part, its old place, and its new one where it is shared. A part's
/// places are its item's.
pub struct RelationPath {
    pub text: Text,
    pub part: Option<u32>,
    pub old: Place,
    pub new: Option<Place>,
}

impl Drop for RelationPath {
    fn drop(self) {
        let RelationPath {
            text: _text,
            part: _part,
            old: _old,
            new: _new,
        } = self;
    }
}

/// Keys of the old edition, in order.
pub type RelationPaths = Sequence<RelationPath>;

/// The relation of two editions of one category, which have no flaw: there is no other.
pub struct Relation {
    paths: RelationPaths,
    known: Known,
    moves: Moves,
    ghost editions: { AreOfEditions paths known moves },
}

impl Drop for Relation {
    fn drop(self) {
        let Relation {
            paths: _paths,
            known: _known,
            moves: _moves,
        } = self;
    }
}

impl Relation {
    /// The relation that has these paths, of which those are known to be shared, and these moves, where they are of two editions.
    pub fn new(paths: RelationPaths, known: Known, moves: Moves) -> Relation
        requires { AreOfEditions paths known moves }
        ensures paths { result.paths ≡ paths }
        ensures known { result.known ≡ known }
        ensures moves { result.moves ≡ moves }
    {
        Relation {
            paths,
            known,
            moves,
        }
    }

    /// Whether the path is a named path of the old edition that the new one shares. Takes no memory.
    #[tactic(auto, using(crate::proofs::SharedPaths::sharing))]
    pub fn shared(&self, path: &Path) -> bool
        ensures { (old new : Spec) → AreOf old new self.now.paths self.now.known self.now.moves → result ≡ shares_path old new path.now }
    {
        self.known.get(path.as_slice()).path
    }

    /// How many first parts the extended items of both editions at the path have in common; 0 of another path. Takes no memory.
    #[tactic(auto, using(crate::proofs::SharedPaths::sharing))]
    pub fn shared_parts(&self, path: &Path) -> u32
        ensures { (old new : Spec) → AreOf old new self.now.paths self.now.known self.now.moves → result ≡ Common (spec_tree old) (spec_tree new) path.now }
    {
        self.known.get(path.as_slice()).parts
    }

    /// The keys of the old edition in order, an extended item before its parts, each with its text, its old place, and its new
    /// one where it is shared. Takes no memory.
    pub fn paths(&self) -> &RelationPaths
        ensures { result.now ≡ self.now.paths }
    {
        &self.paths
    }

    /// The shared slots in the order of the new edition.
    pub fn moves(&self) -> &Moves
        ensures { result.now ≡ self.now.moves }
    {
        &self.moves
    }
}
