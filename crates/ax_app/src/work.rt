//! The work on the blocks of an input, with all the memory that it takes.
ghost use Rattle.std.specs.Prelude.{◌≡◌, IfOk};
ghost use Rattle.ax_app.specs.Working.{IsNew, IsSoundJob, IsSound, blocks_command, job_command, limit_of, work_command};

use crate::job::Job;
use ax_blocks::BlockReader;
use ax_canon::CanonViews;
use ax_filter_work::FilterViews;
use ax_migrate_views::MigrateViews;
use std::alloc::{AllocError, Global};

/// The work on each block, by the job.
#[derive(Drop)]
pub(crate) enum BlocksWork<'f, 'c> {
    Canon(CanonViews<'f>),
    Filter(FilterViews<'f, 'c>),
    Migrate(MigrateViews<'f, 'c>),
}

impl<'f, 'c> BlocksWork<'f, 'c> {
    fn of(alloc: Global, job: Job<'f, 'c>) -> Result<BlocksWork<'f, 'c>, AllocError>
        requires { IsSoundJob job }
        ensures command { IfOk result (λ blocks. blocks_command blocks ≡ job_command job.entry) }
        ensures sound { IfOk result IsSound }
    {
        match job {
            Job::Canon(catalogue, codecs) => {
                let work = CanonViews::new(alloc, catalogue, codecs)?;
                Ok(BlocksWork::Canon(work))
            }
            Job::Filter(codecs, filter) => {
                let work = FilterViews::new(alloc, filter, codecs)?;
                Ok(BlocksWork::Filter(work))
            }
            Job::Migrate(migrator) => {
                let work = MigrateViews::new(alloc, migrator)?;
                Ok(BlocksWork::Migrate(work))
            }
        }
    }
}

/// A job with a reader for its input and an output for one block: all the memory that it takes.
#[derive(Drop)]
pub struct Work<'f, 'c> {
    pub(crate) reader: BlockReader,
    pub(crate) blocks: BlocksWork<'f, 'c>,
}

impl<'f, 'c> Work<'f, 'c> {
    /// A new work on an input of at most `limit` octets. The codecs are those of the job's catalogue, or of its filter's; a
    /// migrator's are those of its editions. Want of memory is the one refusal; after it nothing takes memory.
    pub fn new(alloc: Global, job: Job<'f, 'c>, limit: u64) -> Result<Work<'f, 'c>, AllocError>
        requires { IsSoundJob job }
        ensures new { IfOk result IsNew }
        ensures command { IfOk result (λ work. work_command work ≡ job_command job.entry) }
        ensures limit { IfOk result (λ work. limit_of work ≡ limit) }
    {
        let reader = BlockReader::new(alloc, limit)?;
        let blocks = BlocksWork::of(alloc, job)?;
        Ok(Work { reader, blocks })
    }
}
