// The search of an index by halves. Here alone are names of the index compared, and each comparison is counted.
ghost use Rattle.std.specs.Prelude.{◌≡◌, ◌+◌, ◌<◌, ◌≤◌, ⊤, length, MatchOption};
ghost use Rattle.index.specs.Index.{record_offset};
ghost use Rattle.index_find.specs.Finding.{not_above, is_equal};
ghost use Rattle.index_find.specs.Inner.{comparison, gone_by};

use index::keys::key_of;
use index_check::IndexedDirectory;
use std::cmp::Ordering;

// The last record gone past, if it has the asked name, and how many names were compared.
#[derive(Clone, Copy)]
pub struct GonePast {
    pub last: Option<usize>,
    pub compared: usize,
}

// Compares the name of one record with the asked name, which is given as its eight bytes.
fn compare(at: &IndexedDirectory, asked: [u8; 8], i: usize) -> Ordering
    requires { i < at.now.count }
    ensures { result ≡ comparison at.now.index.now asked i }
{
    let record = at.record(i);
    key_of(record.name).cmp(&key_of(asked))
}

// Compares the record behind half of those that are left. If it is not above the asked name the search goes on after
// it, otherwise before it. No `partition_point`: it does not say how many names it compares, and `compared` is promised.
pub fn gone_past(at: &IndexedDirectory, name: &[u8]) -> GonePast
    requires { length name.now ≡ 8 }
    ensures gone { result ≡ gone_by (not_above at.now.index.now name.now) (is_equal at.now.index.now name.now) at.now.count }
    ensures within { MatchOption result.last ⊤ (λ i. i < at.now.count) }
{
    let asked = index::names::padded(name);
    let mut past = 0;
    let mut left = at.count;
    let mut last = None;
    let mut compared = 0;
    while 0 < left {
        let half = left / 2;
        compared += 1;
        let order = compare(at, asked, past + half);
        if order.is_gt() {
            left = half;
        } else {
            last = order.is_eq().then_some(past + half);
            past += half + 1;
            left -= half + 1;
        }
    }
    GonePast { last, compared }
}
