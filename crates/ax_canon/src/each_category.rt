//! Looking up what the records of each category are walked over by.
ghost use Rattle.std.specs.Prelude.{◌≡◌, IfOk, IfSome};
ghost use Rattle.std.specs.Option.{option_map};
ghost use Rattle.ax_canon.specs.CategoryRows.{AreCategoryRows, AreRowsTo, lent_codec, own_codec};
ghost use Rattle.ax_codec.specs.Standing.{codec_of};
ghost use Rattle.ax_walk.specs.RecordRows.{AreRecordRows};

use crate::category_rows::CategoryRows;
use ax_tables::Codecs;
use ax_walk::RecordRows;
use std::alloc::{AllocError, Global};

/// The categories: 0 to 255.
const CATEGORIES: u32 = 256;

/// What the records of a category are walked over by. None comes exactly where it has no codec.
fn rows_for(codecs: &Codecs, category: u8) -> Option<RecordRows<'_>>
    ensures codec { option_map own_codec result ≡ codec_of category codecs.now.codecs }
    ensures rows { IfSome result AreRecordRows }
{
    let codec = codecs.get(category)?;
    Some(RecordRows::of(codec))
}

/// The same of all categories.
fn rows_of<'c>(alloc: Global, codecs: &'c Codecs) -> Result<Vec<Option<RecordRows<'c>>>, AllocError>
    ensures { IfOk result (λ made. AreRowsTo codecs.now.codecs 256 made.items) }
{
    let mut rows = Vec::new(alloc);
    for category in 0..CATEGORIES {
        rows.push(rows_for(codecs, category as u8))?;
    }
    Ok(rows)
}

impl<'c> CategoryRows<'c> {
    /// Those of these codecs. What is taken here is all the memory.
    pub fn of(alloc: Global, codecs: &'c Codecs) -> Result<CategoryRows<'c>, AllocError>
        ensures codecs { IfOk result (λ made. made.codecs.now ≡ codecs.now) }
        ensures rows { IfOk result AreCategoryRows }
    {
        let rows = rows_of(alloc, codecs)?;
        Ok(CategoryRows { codecs, rows })
    }

    /// What the records of that category are walked over by. None comes exactly where it has no codec.
    #[inline(always)]
    pub fn get(&self, category: u8) -> Option<&RecordRows<'c>>
        requires { AreCategoryRows self.now }
        ensures codec { option_map lent_codec result ≡ codec_of category self.now.codecs.now.codecs }
        ensures rows { IfSome result (λ rows. AreRecordRows rows.now) }
    {
        self.rows[category as usize].as_ref()
    }
}
