//! What the words ask for: a row for each command in each of its tables.
ghost use Rattle.std.specs.Prelude.{◌≡◌, IfOk};
ghost use Rattle.ax_words.specs.Verbs.{name_of, shape_of};

use crate::shape::Shape;
use ax_lists::Sequence;
use std::alloc::{AllocError, Global};
use std::marker::Model;

/// A word of the command line. Contracts see it as the list of its octets.
pub struct WordText {
    word: String,
}

impl Drop for WordText {
    fn drop(self) {
        let WordText { word: _word } = self;
    }
}

impl Model for WordText {
    ghost use Rattle.std.specs.Prelude.{List, ℕ};
    ghost use Rattle.std.specs.String.{string_bytes};

    ghost Value = { List ℕ };

    ghost view = { λ w. string_bytes w.word };
}

impl WordText {
    /// A word of the same octets. Takes their room once.
    pub fn of(alloc: Global, word: &str) -> Result<WordText, AllocError>
        ensures { IfOk result (λ made. made ≡ word.now) }
    {
        let word = String::from_str(alloc, word)?;
        Ok(WordText { word })
    }

    /// The word. Takes no memory.
    pub fn text(&self) -> &str
        ensures { result.now ≡ self.now }
    {
        self.word.as_str()
    }
}

/// Words in their order, fewer than 2^32 of them.
pub type WordTexts = Sequence<WordText>;

/// What a command does, by its first word.
#[derive(Clone, Copy)]
pub(crate) enum Verb {
    Check,
    Canon,
    Show,
    Text,
    Build,
    Filter,
    Migrate,
    Trial,
    Salvage,
    Expand,
    Convert,
}

/// Every verb, once.
pub(crate) const VERBS: [Verb; 11] = [
    Verb::Check,
    Verb::Canon,
    Verb::Show,
    Verb::Text,
    Verb::Build,
    Verb::Filter,
    Verb::Migrate,
    Verb::Trial,
    Verb::Salvage,
    Verb::Expand,
    Verb::Convert,
];

impl Verb {
    /// The word that names it, and the shape of the words after it.
    fn usage(self) -> (&'static str, Shape)
        ensures name { result.0.now ≡ name_of self }
        ensures shape { result.1 ≡ shape_of self }
    {
        match self {
            Verb::Check => ("check", Shape::OneFile),
            Verb::Canon => ("canon", Shape::Catalogue),
            Verb::Show => ("show", Shape::Catalogue),
            Verb::Text => ("text", Shape::Catalogue),
            Verb::Build => ("build", Shape::Catalogue),
            Verb::Filter => ("filter", Shape::Expression),
            Verb::Migrate => ("migrate", Shape::Editions),
            Verb::Trial => ("trial", Shape::Numbers),
            Verb::Salvage => ("salvage", Shape::Catalogue),
            Verb::Expand => ("expand", Shape::Expansion),
            Verb::Convert => ("convert", Shape::Editions),
        }
    }

    /// The word that names it.
    pub(crate) fn name(self) -> &'static str
        ensures { result.now ≡ name_of self }
    {
        self.usage().0
    }

    /// The shape of the words after it.
    pub(crate) fn shape(self) -> Shape
        ensures { result ≡ shape_of self }
    {
        self.usage().1
    }
}

/// What the words ask for: one variant for each command.
pub enum Line {
    /// `check SPEC`
    Check {
        file: WordText,
    },
    /// `canon` and one or more SPEC.
    Canon {
        files: WordTexts,
    },
    /// `show` and one or more SPEC.
    Show {
        files: WordTexts,
    },
    /// `text` and one or more SPEC.
    Text {
        files: WordTexts,
    },
    /// `build` and one or more SPEC.
    Build {
        files: WordTexts,
    },
    /// `filter EXPR` and one or more SPEC.
    Filter {
        expr: WordText,
        files: WordTexts,
    },
    /// `migrate OLD NEW`
    Migrate {
        old: WordText,
        new: WordText,
    },
    /// `trial SPEC SEED COUNT`
    Trial {
        file: WordText,
        seed: u64,
        count: u32,
    },
    /// `salvage` and one or more SPEC.
    Salvage {
        files: WordTexts,
    },
    /// `expand SPEC EXPANSION`
    Expand {
        spec: WordText,
        expansion: WordText,
    },
    /// `convert OLD NEW`
    Convert {
        old: WordText,
        new: WordText,
    },
    /// `--help` alone.
    Help,
    /// `--version` alone.
    Version,
}

impl Drop for Line {
    fn drop(self) {
        match self {
            Line::Check { file: _file } => {}
            Line::Canon { files: _files } => {}
            Line::Show { files: _files } => {}
            Line::Text { files: _files } => {}
            Line::Build { files: _files } => {}
            Line::Filter {
                expr: _expr,
                files: _files,
            } => {}
            Line::Migrate {
                old: _old,
                new: _new,
            } => {}
            Line::Trial {
                file: _file,
                seed: _seed,
                count: _count,
            } => {}
            Line::Salvage { files: _files } => {}
            Line::Expand {
                spec: _spec,
                expansion: _expansion,
            } => {}
            Line::Convert {
                old: _old,
                new: _new,
            } => {}
            Line::Help => {}
            Line::Version => {}
        }
    }
}
