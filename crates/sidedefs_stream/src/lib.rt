// SIDEDEFS judged as they arrive, in scraps of any length: refusals 80, 81, 20, 21 and 24. The state is kept by the caller,
// and of the bytes one half of a sector at most. The definitions are in specs/.
#![tactic(auto)]

ghost use Rattle.std.specs.Prelude.{◌≡◌, cond, ◌+◌, ◌%◌, ◌≤◌, ◌<◌, length};
ghost use Rattle.record.specs.Sidedefs.{sidedef_size};
ghost use Rattle.wad.specs.Header.{most_bytes};
ghost use Rattle.sidedefs_stream.specs.Scraps.{high_place, started, step_of, fed, sectors_check, total_check, records_check, stream_verdict};
ghost use Rattle.sidedefs_stream.specs.Inner.{FirstBad, low_after};

use record::Sidedef;
use refusal::Refusal;
use wad::MOST_BYTES;

// Where the two bytes of a sidedef's sector stand in its record.
const LOW: usize = 28;

const HIGH: usize = 29;

// What is known of the lump between two scraps.
#[repr(C)]
#[derive(Clone, Copy)]
pub struct Stream {
    // as given at the start
    pub sectors: usize,
    // bytes so far, at most 16,777,217
    pub bytes: usize,
    // the first sidedef whose sector is not there, 0 while there is none: C has no Option, so that `found` says whether
    pub bad: usize,
    // the low byte of a sector that a cut divides, else 0
    pub low: u8,
    // whether there is such a sidedef
    pub found: bool,
}

// The state before the first scrap.
pub fn start(sectors: usize) -> Stream
    ensures { result ≡ started sectors }
{
    Stream {
        sectors,
        bytes: 0,
        bad: 0,
        low: 0,
        found: false,
    }
}

// The state after one more scrap.
pub fn feed(state: Stream, scrap: &[u8]) -> Stream
    ensures { result ≡ fed state scrap.now }
{
    let Some((first, rest)) = scrap.split_first() else {
        return state;
    };
    if MOST_BYTES < state.bytes {
        return state;
    }
    if state.bytes % Sidedef::SIZE == HIGH {
        return feed_records(step(state, *first), rest);
    }
    feed_records(state, scrap)
}

// One byte, which completes the sector that a cut divided.
fn step(state: Stream, byte: u8) -> Stream
    requires { (state.bytes ≤ most_bytes) × (state.bytes % sidedef_size ≡ high_place) }
    ensures { result ≡ step_of state byte }
{
    let bad = state.sectors <= state.low as usize + 256 * (byte as usize);
    Stream {
        bytes: state.bytes + 1,
        bad: pick(bad & !state.found, state.bytes / Sidedef::SIZE, state.bad),
        low: 0,
        found: state.found | bad,
        ..state
    }
}

// A scrap that does not begin inside a sector. What lies past the most bytes is not looked at.
fn feed_records(state: Stream, scrap: &[u8]) -> Stream
    requires { (state.bytes ≤ most_bytes) × (state.bytes % sidedef_size < high_place) }
    ensures { result ≡ fed state scrap.now }
{
    let n = scrap.len().min(MOST_BYTES + 1 - state.bytes);
    feed_part(state, &scrap[..n])
}

fn feed_part(state: Stream, scrap: &[u8]) -> Stream
    requires { (state.bytes + length scrap.now ≤ most_bytes + 1) × (state.bytes % sidedef_size < high_place) }
    ensures { (result ≡ fed state scrap.now) × (result.bytes ≡ state.bytes + length scrap.now) }
{
    let place = first_bad(state.found, state.sectors, state.bytes, scrap);
    let bad = place + 1 < scrap.len();
    Stream {
        bytes: state.bytes + scrap.len(),
        bad: pick(
            bad & !state.found,
            (state.bytes + place) / Sidedef::SIZE,
            state.bad,
        ),
        low: low_after(state.low, state.bytes, scrap),
        found: state.found | bad,
        ..state
    }
}

// From sector to sector, by their high bytes, which one test holds inside: where the first one stands that is not there, or the
// scrap's last byte, behind which no sector ends.
fn first_bad(found: bool, sectors: usize, bytes: usize, scrap: &[u8]) -> usize
    requires { (bytes + length scrap.now ≤ most_bytes + 1) × (bytes % sidedef_size < high_place) }
    ensures { FirstBad found sectors bytes scrap.now result }
{
    if found {
        return scrap.len();
    }
    let first = HIGH - bytes % Sidedef::SIZE;
    for i in 0..(scrap.len() + (Sidedef::SIZE - 1) - first) / Sidedef::SIZE {
        let low = first + Sidedef::SIZE * i - 1;
        if sectors <= endian::u16_at(scrap, low) as usize {
            return low;
        }
    }
    scrap.len().saturating_sub(1)
}

// A scrap's last byte is kept where it is the low byte of a sector.
fn low_after(low: u8, bytes: usize, scrap: &[u8]) -> u8
    requires { bytes + length scrap.now ≤ most_bytes + 1 }
    ensures { result ≡ low_after low bytes scrap.now (length scrap.now) }
{
    match scrap.last() {
        None => low,
        Some(&last) if (bytes + scrap.len() - 1) % Sidedef::SIZE == LOW => last,
        Some(_) => 0,
    }
}

// A choice as a value: the state is made anew in one expression and stays in registers.
fn pick(first: bool, a: usize, b: usize) -> usize
    ensures { result ≡ cond first a b }
{
    if first { a } else { b }
}

// 80.
fn judge_sectors(sectors: usize) -> Result<(), Refusal>
    ensures { result ≡ sectors_check sectors }
{
    refusal::pass_if((1 <= sectors) & (sectors <= 65535), Refusal::StreamSectors)
}

// 81.
fn judge_total(bytes: usize) -> Result<(), Refusal>
    ensures { result ≡ total_check bytes }
{
    refusal::pass_if(bytes <= MOST_BYTES, Refusal::StreamLength)
}

// 20, then 21.
fn judge_records(bytes: usize) -> Result<(), Refusal>
    ensures { result ≡ records_check bytes }
{
    let count = bytes / Sidedef::SIZE;
    refusal::pass_if(
        bytes % Sidedef::SIZE == 0,
        Refusal::RecordSize(Sidedef::PLACE),
    )?;
    refusal::pass_if(
        (1 <= count) & (count <= 65535),
        Refusal::RecordCount(Sidedef::PLACE),
    )
}

// The verdict on what was fed so far: 80, 81, 20, 21 and the first 24.
pub fn verdict(state: Stream) -> Result<(), Refusal>
    ensures { result ≡ stream_verdict state }
{
    judge_sectors(state.sectors)?;
    judge_total(state.bytes)?;
    judge_records(state.bytes)?;
    refusal::pass_if(!state.found, Refusal::SidedefReference(state.bad))
}
