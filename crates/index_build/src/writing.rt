// Judges what is lent, and writes the index's head and records.
ghost use Rattle.std.specs.Prelude.{◌≡◌, ◌+◌, ◌-◌, ◌*◌, ◌≤◌, length, Ok};
ghost use Rattle.std.proofs.lemmas.List.Edits.{sets};
ghost use Rattle.wad.specs.Entries.{file_check};
ghost use Rattle.index.specs.Index.{index_head_size, index_record_size, record_offset, index_head};
ghost use Rattle.index_build.specs.Building.{build_check};
ghost use Rattle.index_build.specs.Inner.{put_record, written};

use index::IndexRecord;
use refusal::Refusal;

// Refusals 1 to 6 of the file, then 86 (records or output too short).
pub fn judge(wad: &[u8], records: usize, room: usize) -> Result<(), Refusal>
    ensures { result ≡ build_check wad.now records room }
{
    wad::judge_file(wad)?;
    let count = wad::entry_count(wad);
    refusal::pass_if(
        (count <= records) & (11 + 10 * count <= room),
        Refusal::IndexRoom,
    )
}

pub fn put_head(wad: &[u8], out: &mut [u8])
    requires { (file_check wad.now ≡ Ok tt) × (index_head_size ≤ length out.old) }
    ensures { out.new ≡ sets out.old 0 (index_head wad.now) }
{
    out[..3].copy_from_slice(b"WIX");
    endian::put_u16(out, 3, 1);
    endian::put_u16(out, 5, wad::entry_count(wad) as u16);
    endian::put_u32(out, 7, wad.len() as u32);
}

// The bytes of the records, each at its place behind the head.
pub fn write(records: &[IndexRecord], out: &mut [u8])
    requires { index_record_size * length records.now ≤ length out.old - index_head_size }
    ensures { out.new ≡ written records.now (length records.now) out.old }
{
    for (i, r) in records.iter().enumerate() {
        put_record(out, i, *r);
    }
}

// The name, and the number, low byte first.
fn put_record(out: &mut [u8], i: usize, r: IndexRecord)
    requires { record_offset i + index_record_size ≤ length out.old }
    ensures { out.new ≡ put_record out.old i r }
{
    let at = 11 + 10 * i;
    out[at..at + 8].copy_from_slice(&r.name);
    endian::put_u16(out, at + 8, r.number);
}
