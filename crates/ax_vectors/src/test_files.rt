//! Small category files, and expansion files, that show one thing each.

/// Three plain elements, on one line as a specification is printed.
pub const FILE_E: &str =
    r#"category 034 edition "034-E" items { item 010 "" element 16 raw item 000 "" element 8 raw item 030 "" element 24 raw } uap { 010 000 030 }
"#;

/// The same items with titles, contents and a group.
pub const FILE_A: &str = r#"category 034 edition "034-A"
items {
item 010 "Data source identifier" group { SAC element 8 raw SIC element 8 raw }
item 000 "Message type" element 8 table { 1 "North marker message" 2 "Sector crossing message" }
item 030 "Time of day" element 24 quantity unsigned 1 128 "s"
}
uap { 010 000 030 }
"#;

/// Each kind of item.
pub const FILE_K: &str =
    r#"category 205 edition "K" items { item 010 "" element 16 raw item 020 "" extended { part { A element 7 raw } part { B element 4 raw spare 3 } } item 030 "" byfx element 7 raw item 040 "" counted { element 8 raw } item 050 "" explicit item 060 "" compound { A element 8 raw - B element 8 raw } item 070 "" element 8 raw item 080 "" element 8 raw } uap { 010 020 030 040 050 060 070 080 }
"#;

/// A counted compound of nine subitems.
pub const FILE_N: &str =
    r#"category 200 edition "N" items { item 010 "" counted { compound { A element 8 raw B element 8 raw C element 8 raw D element 8 raw E element 8 raw F element 8 raw G element 8 raw H element 8 raw I element 8 raw } } } uap { 010 }
"#;

/// Six spare slots between two items.
pub const FILE_S: &str =
    r#"category 204 edition "S" items { item 010 "" element 8 raw item 020 "" element 8 raw } uap { 010 - - - - - - 020 }
"#;

/// An item in the first slot.
pub const FILE_G1: &str =
    r#"category 201 edition "G1" items { item 010 "" element 8 raw } uap { 010 }
"#;

/// The item of `FILE_G1` in the eighth slot.
pub const FILE_G2: &str =
    r#"category 201 edition "G2" items { item 010 "" element 8 raw } uap { - - - - - - - 010 }
"#;

/// A compound of two subitems.
pub const FILE_H1: &str =
    r#"category 202 edition "H1" items { item 010 "" compound { A element 8 raw B element 16 raw } } uap { 010 }
"#;

/// The subitems of `FILE_H1` in another order, one with another content.
pub const FILE_H2: &str =
    r#"category 202 edition "H2" items { item 010 "" compound { B element 16 raw A element 8 integer unsigned } } uap { 010 }
"#;

/// The item of `FILE_H1` as an element.
pub const FILE_H3: &str =
    r#"category 202 edition "H3" items { item 010 "" element 8 raw } uap { 010 }
"#;

/// A file with two flaws.
pub const FILE_F: &str =
    r#"category 034 edition "F" items { item 010 "" element 7 raw } uap { 010 010 }
"#;

/// A counter of two octets, and a last part without FX.
pub const FILE_W: &str =
    r#"category 206 edition "W" items { item 010 "" wide { element 8 raw } item 020 "" closed { part { A element 7 raw } part { B element 8 raw } } } uap { 010 020 }
"#;

/// A quantity, in a category of its own.
pub const FILE_Y1: &str =
    r#"category 209 edition "Y1" items { item 010 "" element 16 quantity unsigned 1 128 "s" } uap { 010 }
"#;

/// The quantity of `FILE_Y1` in more bits, under a finer scale.
pub const FILE_Y2: &str =
    r#"category 209 edition "Y2" items { item 010 "" element 24 quantity unsigned 1 256 "s" } uap { 010 }
"#;

/// The quantity of `FILE_Y1` in fewer bits, under a coarser scale.
pub const FILE_Y3: &str =
    r#"category 209 edition "Y3" items { item 010 "" element 8 quantity unsigned 1 64 "s" } uap { 010 }
"#;

/// The quantity of `FILE_Y1` in another unit.
pub const FILE_Y4: &str =
    r#"category 209 edition "Y4" items { item 010 "" element 16 quantity unsigned 1 128 "min" } uap { 010 }
"#;

/// No item, and a spare slot.
pub const FILE_Z: &str = r#"category 203 edition "Z" items { } uap { - }
"#;

/// Seventeen nested braces, one more than a category file may have.
pub const NESTED_TOO_DEEP: &str =
    r#"category 001 edition "D" items { item 010 "T" group { A group { A group { A group { A group { A group { A group { A group { A group { A group { A group { A group { A group { A group { A group { A group {"#;

/// An expansion file of category 048 with one octet of marks. It is a test, and no RE field of EUROCONTROL's.
pub const FILE_X: &str =
    r#"expansion 048 edition "T1" fixed 1 { A element 8 raw - B counted { element 8 raw } }
"#;

/// An expansion file of category 048 with a presence field by FX. It is a test, and no RE field of EUROCONTROL's.
pub const FILE_X2: &str =
    r#"expansion 048 edition "T2" fx { A element 8 raw - - - - - - B element 8 raw }
"#;
