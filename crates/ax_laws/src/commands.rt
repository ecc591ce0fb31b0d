//! What each command takes, does and may end in, said a second time: the table of ax_app has a row for each, and here the rows are
//! read by the words that contracts use. Each function stands for what its contract says.
ghost use Rattle.std.specs.Prelude.{◌≡◌, ℕ, List, [], ◌∷◌, true, false, Some, None};
ghost use Rattle.ax_app.specs.Given.{Given, files_of, takes_distinct, expansion_of};
ghost use Rattle.ax_app.specs.Rows.{IsTask, show_command, text_command, help_text, version_text};
ghost use Rattle.ax_app.specs.Tasks.{Task, writes, each_block, builds, salvages};
ghost use Rattle.ax_blocks.specs.BlockCommands.{canon_command};
ghost use Rattle.ax_laws.specs.CommandTable.{none, HasEndings};
ghost use Rattle.ax_words.specs.declared.line.Line.TheVariants as LineOf;

/// What may come of each command that doesn't come of all. `check`, `canon`, `trial`, `--help` and `--version` have nothing of that.
pub fn endings_of_commands()
    ensures check { (file : List ℕ) → HasEndings (LineOf.Check file) none }
    ensures canon { (files : List (List ℕ)) → HasEndings (LineOf.Canon files) none }
    ensures show { (files : List (List ℕ)) → HasEndings (LineOf.Show files) (record none { late_want_of_memory = true }) }
    ensures text { (files : List (List ℕ)) → HasEndings (LineOf.Text files) (record none { late_want_of_memory = true }) }
    ensures build { (files : List (List ℕ)) → HasEndings (LineOf.Build files) (record none { late_want_of_memory = true; refused_line = true }) }
    ensures filter { (expression : List ℕ) (files : List (List ℕ))
        → HasEndings (LineOf.Filter expression files) (record none { refused_expression = true }) }
    ensures migrate { (old new : List ℕ)
        → HasEndings (LineOf.Migrate old new) (record none { failed_line = true; refused_length = true; refused_categories = true }) }
    ensures trial { (file : List ℕ) (seed count : ℕ) → HasEndings (LineOf.Trial file seed count) none }
    ensures salvage { (files : List (List ℕ)) → HasEndings (LineOf.Salvage files) (record none { failed_line = true }) }
    ensures expand { (spec expansion : List ℕ) → HasEndings (LineOf.Expand spec expansion)
        (record none { late_want_of_memory = true; failed_line = true; refused_categories = true; refused_expansion = true }) }
    ensures convert { (old new : List ℕ) → HasEndings (LineOf.Convert old new)
        (record none { late_want_of_memory = true; failed_line = true; refused_length = true; refused_categories = true }) }
    ensures help { HasEndings LineOf.Help none }
    ensures version { HasEndings LineOf.Version none }
{}

/// The task of each command over a catalogue, and of the two that take no file. Those of the others are relations of their own.
pub fn tasks_of_commands()
    ensures canon { (files : List (List ℕ)) (given : Given) (task : Task) → IsTask (LineOf.Canon files) given task
        → task ≡ each_block (canon_command given.specs) }
    ensures show { (files : List (List ℕ)) (given : Given) (task : Task) → IsTask (LineOf.Show files) given task
        → task ≡ each_block (show_command given.specs) }
    ensures text { (files : List (List ℕ)) (given : Given) (task : Task) → IsTask (LineOf.Text files) given task
        → task ≡ each_block (text_command given.specs) }
    ensures build { (files : List (List ℕ)) (given : Given) (task : Task) → IsTask (LineOf.Build files) given task → task ≡ builds given.specs }
    ensures salvage { (files : List (List ℕ)) (given : Given) (task : Task) → IsTask (LineOf.Salvage files) given task → task ≡ salvages given.specs }
    ensures help { (given : Given) (task : Task) → IsTask LineOf.Help given task → task ≡ writes 0 help_text }
    ensures version { (given : Given) (task : Task) → IsTask LineOf.Version given task → task ≡ writes 0 version_text }
{}

/// The files of each command: the category files in their order, whether they have to be of distinct categories, and the expansion file.
pub fn files_of_commands()
    ensures canon { (files : List (List ℕ)) → files_of (LineOf.Canon files) ≡ files × takes_distinct (LineOf.Canon files) ≡ true }
    ensures filter { (expression : List ℕ) (files : List (List ℕ))
        → files_of (LineOf.Filter expression files) ≡ files × takes_distinct (LineOf.Filter expression files) ≡ true }
    ensures migrate { (old new : List ℕ)
        → files_of (LineOf.Migrate old new) ≡ old ∷ new ∷ [] × takes_distinct (LineOf.Migrate old new) ≡ false }
    ensures convert { (old new : List ℕ)
        → files_of (LineOf.Convert old new) ≡ old ∷ new ∷ [] × takes_distinct (LineOf.Convert old new) ≡ false }
    ensures expand { (spec expansion : List ℕ)
        → files_of (LineOf.Expand spec expansion) ≡ spec ∷ [] × expansion_of (LineOf.Expand spec expansion) ≡ Some expansion }
    ensures check { (file : List ℕ) → files_of (LineOf.Check file) ≡ file ∷ [] × expansion_of (LineOf.Check file) ≡ None }
    ensures help { files_of LineOf.Help ≡ [] × expansion_of LineOf.Help ≡ None }
{}
