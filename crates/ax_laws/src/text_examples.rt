//! Worked examples of the definitions. Each function stands for what its contract says.
ghost use Rattle.std.specs.Prelude.{◌≡◌, [], ◌∷◌, ◌++◌, codes};
ghost use Rattle.ax_format.specs.declared.content.Content.TheVariants.{Table, Ascii, Icao, Octal, Integer};
ghost use Rattle.ax_format.specs.declared.content.Sign.TheVariants.{Signed, Unsigned};
ghost use Rattle.ax_text_form.specs.BlockText.{BlockLine};
ghost use Rattle.ax_laws.specs.TextExamples.{quarters, small, small_block};
ghost use Rattle.ax_text_form.specs.Printing.{as_lines};
ghost use Rattle.ax_text_form.specs.Remarks.{quoted, remark};
ghost use Rattle.ax_text_form.specs.ShowText.{ShowText};

/// The line of a block of three records.
pub fn line_of_a_block()
    ensures { BlockLine small small_block
        ≡ codes "block 007 { record { 010 { A 62 spare 3 } 020 { part { B 5 } part { C 127 } } } record { 030 { 5 6 } 040 { D { 9 } } } record { } }"
        ++ 10 ∷ [] }
{}

/// The listing of the same block.
pub fn listing_of_a_block()
    ensures { ShowText small small_block 3 ≡ as_lines (
        codes "block 3 category 007 octets 14 records 3"
        ∷ codes "record 0" ∷ (codes "007/010/A = 62 -1/2 " ++ quoted (codes "FL")) ∷ codes "007/010/spare = 3"
        ∷ codes "007/020 parts 2" ∷ codes "007/020/B = 5" ∷ codes "007/020/C = 127 -1"
        ∷ codes "record 1" ∷ codes "007/030 occurrences 2" ∷ codes "007/030[0] = 5" ∷ codes "007/030[1] = 6"
        ∷ codes "007/040 subitems 1" ∷ codes "007/040/D occurrences 1" ∷ codes "007/040/D[0] = 9"
        ∷ codes "record 2" ∷ []) }
{}

/// What numbers mean.
pub fn remarks_of_contents()
    ensures table { remark 8 (Table (record { number = 1; text = codes "one" } ∷ record { number = 1; text = codes "uno" } ∷ [])) 1
        ≡ codes " " ++ quoted (codes "one") }
    ensures no_entry { remark 8 (Table (record { number = 1; text = codes "one" } ∷ [])) 2 ≡ [] }
    ensures ascii { remark 32 Ascii 0x410A227E ≡ codes " " ++ quoted (codes "A..~") }
    ensures icao { remark 48 Icao 4588644206624 ≡ codes " " ++ quoted (codes "AB1     ") }
    ensures octal { remark 12 Octal 3584 ≡ codes " " ++ quoted (codes "7000") }
    ensures integer { remark 8 (Integer Unsigned) 128 ≡ [] }
    ensures signed { remark 8 (Integer Signed) 128 ≡ codes " -128" }
    ensures zero { remark 14 quarters 0 ≡ codes " 0/1 " ++ quoted (codes "FL") }
    ensures negative { remark 14 quarters 16383 ≡ codes " -1/4 " ++ quoted (codes "FL") }
    ensures reduced { remark 14 quarters 1400 ≡ codes " 350/1 " ++ quoted (codes "FL") }
{}
