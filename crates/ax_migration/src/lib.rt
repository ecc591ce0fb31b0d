//! What migration of data blocks from one edition of a category to another is: what each record loses, what the migrated block
//! is (`specs/Migrating.antt`), and the command `migrate`, with a line on the report for each lost entry (`specs/Commands.antt`).
//! Its work over views stands in the crates above, and so does migration of blocks that are in memory.
#![tactic(auto)]

mod line;
mod losses;

pub use line::{Loss, loss_line};
pub use losses::{LossEntry, LossList};
