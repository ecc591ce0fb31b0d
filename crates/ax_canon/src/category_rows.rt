//! What the records of each category are walked over by.
ghost use Rattle.std.specs.Prelude.{◌≡◌, length};

use ax_tables::Codecs;
use ax_walk::RecordRows;

/// For each category of some codecs what its records are walked over by, looked up once for all blocks.
pub struct CategoryRows<'c> {
    /// What it stands for: contracts speak of it, the code doesn't.
    pub codecs: &'c Codecs,
    /// By category, from 0 on; none where there is no codec.
    pub(crate) rows: Vec<Option<RecordRows<'c>>>,
    ghost each_category: { length rows.items ≡ 256 },
}

impl Drop for CategoryRows<'_> {
    fn drop(self) {
        let CategoryRows {
            codecs: _codecs,
            rows: _rows,
        } = self;
    }
}
