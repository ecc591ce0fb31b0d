//! Migration of data blocks over views, without memory for a block, and `migrate` as the work of a block command.
#![tactic(auto)]

mod block;
mod bodies;
mod each_loss;
mod kept;
mod losses;
mod migrating;
mod migrating_views;
mod migrator;
mod output;
mod pieces;
mod ranges;
mod work;
mod writing;

pub use bodies::Laid;
pub use losses::Losses;
pub use migrator::Migrator;
pub use ranges::Fit;
pub use work::MigrateViews;
