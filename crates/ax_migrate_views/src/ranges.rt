//! Some of the records of a view in the other edition: as many as come into one data block, and their block. Nothing here
//! takes memory.
ghost use Rattle.std.specs.Prelude.{◌≡◌, ◌+◌, ◌<◌, ◌≤◌, [], length, take, drop};
ghost use Rattle.ax_bits.specs.Out.{written, room};
ghost use Rattle.ax_migrate_views.specs.Blocks.{LaysMigrated};
ghost use Rattle.ax_migrate_views.specs.Ranges.{AppendsRange, AreRecordsOf, FitsFrom, FitsShown, HasRange, HasRecords, LaysRange, SpellsOld, SpellsRange, shown_octets};
ghost use Rattle.ax_format.specs.Sizes.{longest_body};
ghost use Rattle.ax_walk.specs.Left.{records_left};

use crate::migrator::Migrator;
use ax_bits::Out;
use ax_moves::LONGEST;
use ax_walk::{BlockView, Records};

/// The octets of CAT and LEN.
const HEAD: u32 = 3;

/// As many of the records of a view, from one of them on, as come into one data block in the other edition.
#[derive(Clone, Copy, Debug, PartialEq, Eq)]
pub struct Fit {
    /// How many they are: none where the first alone has too many octets for a data block.
    pub count: u32,
    /// The octets of their block; where they are none, of the first record's own, more than 65,535.
    pub octets: u32,
}

/// Goes over so many of the records that are left, and answers how many octets they have.
fn skip_records(later: &mut Records<'_, '_>, number: u32) -> u32
    requires there { number ≤ length (records_left later.old) }
    requires few { length (shown_octets (records_left later.old)) ≤ longest_body }
    ensures left { records_left later.new ≡ drop number (records_left later.old) }
    ensures octets { result ≡ length (shown_octets (take number (records_left later.old))) }
{
    let mut octets = 0;
    let mut count = 0;
    while count < number {
        let Some(record) = later.next() else {
            return octets;
        };
        octets += record.octets().len() as u32;
        count += 1;
    }
    octets
}

impl<'c> Migrator<'c> {
    /// Lays the canonical form of the migrated block of octets that spell records at the front of the output, and answers its
    /// octets; where they are more than 65,535, what is laid there is none.
    fn lay_spelled(&self, octets: &[u8], output: &mut [u8], lines: &mut [u8]) -> u32
        requires spelled { SpellsOld self.now octets.now }
        requires size { (1 ≤ length octets.now) × (length octets.now ≤ longest_body) }
        requires room { length output.old ≡ 131067 }
        requires lines_room { length lines.old ≡ 131067 }
        ensures laid { LaysMigrated self.now octets.now result output.new }
        ensures room { length output.new ≡ 131067 }
        ensures lines_room { length lines.new ≡ 131067 }
    {
        match self.lay_block(octets, output, lines) {
            Ok(count) => count,
            // The octets spell records.
            Err(_) => unreachable!(),
        }
    }

    /// As many of the records that are left as come into one block. A record has the octets of its own block but CAT and LEN.
    fn fit_records(&self, later: &mut Records<'_, '_>) -> Fit
        requires records { AreRecordsOf self.now (records_left later.old) }
        requires some { 0 < length (records_left later.old) }
        ensures { FitsShown self.now (records_left later.old) result }
    {
        let mut output = [0; 131_067];
        let mut lines = [0; 131_067];
        let mut count = 0;
        let mut octets = HEAD;
        while let Some(record) = later.next() {
            let own = self.lay_spelled(record.octets(), &mut output, &mut lines);
            let more = octets.saturating_add(own - HEAD);
            if more > LONGEST {
                let octets = if count == 0 { more } else { octets };
                return Fit { count, octets };
            }
            octets = more;
            count += 1;
        }
        Fit { count, octets }
    }

    /// As many of the records of a view, from that of the number `from` on, as come into one data block as they move, whatever
    /// the later ones are. Count 0 says that this record alone has too many octets, and how many its block would have.
    pub fn fit(&self, view: &BlockView<'_, '_>, from: u32) -> Fit
        requires view { view.now.codec.now ≡ self.now.codec.now }
        requires from { HasRecords self.now view.now.body.now (from + 1) }
        ensures { FitsFrom self.now view.now.body.now from result }
    {
        let mut later = view.records();
        skip_records(&mut later, from);
        self.fit_records(&mut later)
    }

    /// The octets of `count` records of a view, from that of the number `from` on.
    fn range_octets<'a>(&self, view: &BlockView<'_, 'a>, from: u32, count: u32) -> &'a [u8]
        requires view { view.now.codec.now ≡ self.now.codec.now }
        requires there { HasRecords self.now view.now.body.now (from + count) }
        ensures { SpellsRange self.now view.now.body.now from count result.now }
    {
        let mut later = view.records();
        let start = skip_records(&mut later, from);
        let size = skip_records(&mut later, count);
        &view.octets()[start as usize..(start + size) as usize]
    }

    /// Lays the canonical form of the migrated block of `count` records of a view, of 1 at least, from that of the number `from`
    /// on, at the front of the output, and answers its octets; where they are more than 65,535, what is laid there is none.
    pub fn lay_range(
        &self,
        view: &BlockView<'_, '_>,
        from: u32,
        count: u32,
        output: &mut [u8],
    ) -> u32
        requires view { view.now.codec.now ≡ self.now.codec.now }
        requires some { 1 ≤ count }
        requires there { HasRecords self.now view.now.body.now (from + count) }
        requires room { length output.old ≡ 131067 }
        ensures laid { LaysRange self.now view.now.body.now from count result output.new }
        ensures room { length output.new ≡ 131067 }
    {
        let mut lines = [0; 131_067];
        self.lay_spelled(self.range_octets(view, from, count), output, &mut lines)
    }

    /// Appends the canonical form of the migrated block of `count` records of a view, of 1 at least, from that of the number
    /// `from` on. It has at most 65,535 octets.
    pub fn migrate_range(&self, view: &BlockView<'_, '_>, from: u32, count: u32, out: &mut Out<'_>)
        requires view { view.now.codec.now ≡ self.now.codec.now }
        requires empty { written out.old ≡ [] }
        requires range { HasRange self.now view.now.body.now from count (room out.old) }
        ensures { AppendsRange self.now view.now.body.now from count out.old out.new }
    {
        let mut output = [0; 131_067];
        let octets = self.lay_range(view, from, count, &mut output);
        out.push_octets(&output[..octets as usize]);
    }
}
