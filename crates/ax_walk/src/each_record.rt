//! The next record of a body.
ghost use Rattle.std.specs.Prelude.{◌≡◌, ◌≤◌, length, IfSome, IfNone};
ghost use Rattle.std.specs.Iterator.{YieldsFirstBy, item_count};
ghost use Rattle.ax_format.specs.Sizes.{longest_body};
ghost use Rattle.ax_fspec.specs.Reading.{FailsAt, kind_read};
ghost use Rattle.ax_codec.specs.Table.{record_kind_at};
ghost use Rattle.ax_walk.specs.Left.{record_shown, records_left};
ghost use Rattle.ax_walk.specs.Noted.{IsLeastRecord};
ghost use Rattle.ax_walk.specs.RecordRows.{AreRecordRows, own_kind};
ghost use Rattle.ax_walk.specs.RecordsAt.{IsRecordAt, IsNoRecord};

use crate::notes::Notes;
use crate::octets::walk_with;
use crate::record::RecordView;
use crate::record_rows::RecordRows;
use crate::records::Records;
use crate::start::Start;
use crate::windows::octets_from;
use ax_codec::Codec;

/// The record that begins at octet `at`, and the octet after it. None comes exactly where none can be read there.
pub fn record_at<'c, 'a>(
    codec: &'c Codec,
    body: &'a [u8],
    at: u32,
) -> Option<(RecordView<'c, 'a>, u32)>
    requires body { length body.now ≤ longest_body }
    requires at { at ≤ length body.now }
    ensures some { IfSome result (λ r. IsRecordAt codec.now body.now at r.1 r.0.body.now) }
    ensures codec { IfSome result (λ r. r.0.codec.now ≡ codec.now) }
    ensures none { IfNone result (IsNoRecord codec.now body.now at) }
{
    let mut notes = Notes::new();
    record_noted(codec, body, at, &mut notes)
}

/// The same, and what the walk over the record noted: the fault where none can be read there; else, in notes that were new,
/// whether its octets are its canonical spelling.
pub fn record_noted<'c, 'a>(
    codec: &'c Codec,
    body: &'a [u8],
    at: u32,
    notes: &mut Notes,
) -> Option<(RecordView<'c, 'a>, u32)>
    requires body { length body.now ≤ longest_body }
    requires at { at ≤ length body.now }
    ensures some { IfSome result (λ r. IsRecordAt codec.now body.now at r.1 r.0.body.now) }
    ensures codec { IfSome result (λ r. r.0.codec.now ≡ codec.now) }
    ensures least { IfSome result (λ r. IsLeastRecord codec.now r.0.body.now notes.new.least) }
    ensures fault { IfNone result (FailsAt (kind_read (record_kind_at codec.now.nodes codec.now.slots) body.now at) at notes.new.fault) }
{
    record_by_rows(&RecordRows::of(codec), body, at, notes)
}

/// The same, with what the codec's records are walked over by: who reads many records looks for it once.
#[inline(always)]
pub fn record_by_rows<'c, 'a>(
    records: &RecordRows<'c>,
    body: &'a [u8],
    at: u32,
    notes: &mut Notes,
) -> Option<(RecordView<'c, 'a>, u32)>
    requires rows { AreRecordRows records.now }
    requires body { length body.now ≤ longest_body }
    requires at { at ≤ length body.now }
    ensures some { IfSome result (λ r. IsRecordAt records.now.codec.now body.now at r.1 r.0.body.now) }
    ensures codec { IfSome result (λ r. r.0.codec.now ≡ records.now.codec.now) }
    ensures least { IfSome result (λ r. IsLeastRecord records.now.codec.now r.0.body.now notes.new.least) }
    ensures fault { IfNone result (FailsAt (kind_read (own_kind records.now) body.now at) at notes.new.fault) }
{
    let Some(walked) = walk_with(records, Start { body, at }, notes) else {
        return None;
    };
    let record = RecordView {
        codec: records.codec,
        body: &body[at as usize..walked.end as usize],
        field: walked.field,
    };
    Some((record, walked.end))
}

impl<'c, 'a> Iterator for Records<'c, 'a> {
    type Item = RecordView<'c, 'a>;

    ghost next_gives = { YieldsFirstBy record_shown records_left };

    ghost remaining = { item_count records_left };

    #[inline]
    fn next(&mut self) -> Option<RecordView<'c, 'a>> {
        if self.count == 0 {
            return None;
        }
        let Some((record, end)) = record_at(self.codec, self.left, 0) else {
            return None;
        };
        *self = Records {
            codec: self.codec,
            count: self.count - 1,
            left: octets_from(self.left, end),
        };
        Some(record)
    }
}
