//! What is done with each block of an input.
use ax_check::Catalogue;
use ax_filter::Filter;
use ax_migrate_views::Migrator;
use ax_tables::Codecs;

/// What is done with each block of an input, without memory for a block.
#[derive(Clone, Copy)]
pub enum Job<'f, 'c> {
    /// The canonical form of each block, an opaque one as it is, by the codecs of the catalogue's specifications. Contracts
    /// speak of the catalogue, the code doesn't.
    Canon(&'f Catalogue, &'f Codecs),
    /// The canonical form of its records that the filter holds of, by the codecs of the filter's catalogue.
    Filter(&'f Codecs, &'f Filter<'c>),
    /// Its form in another edition, and a line on the report for each entry that is lost.
    Migrate(&'f Migrator<'c>),
}
