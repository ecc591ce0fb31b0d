//! Views of blocks of one edition in another, and what they lose. Nothing here takes memory.
ghost use Rattle.std.specs.Prelude.{◌≡◌, [], length};
ghost use Rattle.ax_bits.specs.Out.{written, room};
ghost use Rattle.ax_migrate_views.specs.Blocks.{AppendsMigrated, CountsMigrated, HasRoom, LaysMigrated};
ghost use Rattle.ax_migrate_views.specs.Losses.{LosesEach, WritesLosses, losses_left};
ghost use Rattle.ax_endpoints.specs.Changes.{sink_change};

use crate::losses::Losses;
use crate::migrator::Migrator;
use crate::writing::write_record;
use ax_bits::Out;
use ax_endpoints::{Sink, SinkFailed};
use ax_moves::{LostBelow, RecordName};
use ax_walk::BlockView;

impl<'c> Migrator<'c> {
    /// Lays the canonical form of the migrated block of a view at the front of the output, and answers its octets; where they
    /// are more than 65,535, what is laid there is none.
    fn lay_view(&self, view: &BlockView<'_, '_>, output: &mut [u8]) -> u32
        requires view { view.now.codec.now ≡ self.now.codec.now }
        requires room { length output.old ≡ 131067 }
        ensures laid { LaysMigrated self.now view.now.body.now result output.new }
        ensures room { length output.new ≡ 131067 }
    {
        let mut lines = [0; 131_067];
        match self.lay_block(view.octets(), output, &mut lines) {
            Ok(count) => count,
            // The body of a view spells records.
            Err(_) => unreachable!(),
        }
    }

    /// The octets of the canonical form of the migrated block of a view, CAT and LEN among them. More than 65,535 are those of no
    /// data block.
    pub fn length(&self, view: &BlockView<'_, '_>) -> u32
        requires view { view.now.codec.now ≡ self.now.codec.now }
        ensures { CountsMigrated self.now view.now.body.now result }
    {
        let mut output = [0; 131_067];
        self.lay_view(view, &mut output)
    }

    /// Appends the canonical form of the migrated block of a view, of at most 65,535 octets.
    pub fn migrate(&self, view: &BlockView<'_, '_>, out: &mut Out<'_>)
        requires view { view.now.codec.now ≡ self.now.codec.now }
        requires empty { written out.old ≡ [] }
        requires room { HasRoom self.now view.now.body.now (room out.old) }
        ensures { AppendsMigrated self.now view.now.body.now out.old out.new }
    {
        let mut output = [0; 131_067];
        let octets = self.lay_view(view, &mut output);
        out.push_octets(&output[..octets as usize]);
    }

    /// What the records of a view lose, by record and, in a record, in the order of the keys of the old edition.
    pub fn losses<'m>(&'m self, view: &'m BlockView<'m, 'm>) -> Losses<'m>
        requires view { view.now.codec.now ≡ self.now.codec.now }
        ensures { LosesEach self.now view.now.body.now (losses_left result) }
    {
        Losses {
            paths: self.relation.paths(),
            here: None,
            count: 0,
            later: view.records(),
        }
    }

    /// Writes the line `lost block N record M KEY` of each key that a record of a view loses, by record and, in a record, in
    /// the order of the keys of the old edition; the block has the number N. At `SinkFailed` a prefix of the lines was added,
    /// not all of them, and the report counted a fault.
    pub fn write_losses<R: Sink>(
        &self,
        report: &mut R,
        block: u64,
        view: &BlockView<'_, '_>,
    ) -> Result<(), SinkFailed>
        requires view { view.now.codec.now ≡ self.now.codec.now }
        ensures { WritesLosses self.now view.now.body.now block (sink_change R.Sink report.old report.new) result }
    {
        let mut lines = [0; 131_067];
        let mut number = 0;
        for one in view.records() {
            let lost = LostBelow {
                name: RecordName { block, number },
                keys: self.lost.as_slice(),
                depth: 0,
            };
            write_record(report, self.codec, &one, &lost, &mut lines)?;
            number += 1;
        }
        Ok(())
    }
}
