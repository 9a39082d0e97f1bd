// The records of an index, one by one: refusal 84.
ghost use Rattle.std.specs.Prelude.{◌≡◌, ◌+◌, ◌*◌, ◌<◌, ◌≤◌, length};
ghost use Rattle.index.specs.Index.{record_offset};
ghost use Rattle.index_check.specs.Inner.{record_in, entry_ok, order_ok, record_ok, records_check};

use crate::head::record_offset;
use index::IndexRecord;
use refusal::Refusal;

// Record i of an index.
pub fn record_in(index: &[u8], i: usize) -> IndexRecord
    requires { (i < 4096) × (record_offset i + 10 ≤ length index.now) }
    ensures { result ≡ record_in index.now i }
{
    let at = record_offset(i);
    IndexRecord {
        name: record_field::name_at(index, at),
        number: endian::u16_at(index, at + 8),
    }
}

// A file's directory, and an index that has room for a record of each entry. Nothing is known of what the records say.
#[derive(Clone, Copy)]
pub struct IndexedDirectory<'a> {
    pub dir: &'a [u8],
    pub count: usize,
    pub index: &'a [u8],
    pub ghost listed: { 16 * count ≤ length dir.now },
    pub ghost few: { count ≤ 4096 },
    pub ghost room: { record_offset count ≤ length index.now },
}

// A record's number is the caller's at each call, so the methods ask that it is below the count.
impl IndexedDirectory<'_> {
    // Record i of the index.
    pub fn record(&self, i: usize) -> IndexRecord
        requires { i < self.now.count }
        ensures { result ≡ record_in self.now.index.now i }
    {
        record_in(self.index, i)
    }

    // It has the number and the name of one of the entries.
    fn of_entry(&self, i: usize) -> bool
        requires { i < self.now.count }
        ensures { result ≡ entry_ok self.now.dir.now self.now.count (record_in self.now.index.now i) }
    {
        let record = self.record(i);
        let number = record.number as usize;
        number < self.count && record == index::record_at(self.dir, number)
    }

    // The record before precedes it.
    fn in_order(&self, i: usize) -> bool
        requires { i < self.now.count }
        ensures { result ≡ order_ok self.now.index.now i }
    {
        i == 0 || index::precedes(self.record(i - 1), self.record(i))
    }

    fn record_ok(&self, i: usize) -> bool
        requires { i < self.now.count }
        ensures { result ≡ record_ok self.now.dir.now self.now.count self.now.index.now i }
    {
        self.of_entry(i) && self.in_order(i)
    }

    // The length, and then each record in turn.
    pub fn judge_records(&self) -> Result<(), Refusal>
        ensures { result ≡ records_check self.now.dir.now self.now.count self.now.index.now }
    {
        refusal::pass_if(
            self.index.len() == record_offset(self.count),
            Refusal::IndexEntries,
        )?;
        refusal::judge_each(self.count, |i| {
            refusal::pass_if(self.record_ok(i), Refusal::IndexEntries)
        })
    }
}
