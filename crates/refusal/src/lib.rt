// The table of refusals as one enum, with the three numbers that a caller is given for each. A check answers
// `Result<(), Refusal>`.
// The table itself is specs/Table.antt.
#![tactic(auto)]

mod status;

ghost use Rattle.std.specs.Prelude.{◌≡◌, ◌<◌, ℕ, ⊤, Result};
ghost use Rattle.refusal.specs.Table.{row_of, number_of, place_of, record_of};
ghost use Rattle.refusal.specs.Checks.{unless, each};

pub use status::{LengthAnswer, Status};

// One case for each number of the table, with the place or the record that varies.
#[derive(Clone, Copy)]
pub enum Refusal {
    // 1: the file's length
    FileLength,
    // 2: the mark, IWAD or PWAD
    Mark,
    // 3: the count of lumps
    LumpCount,
    // 4: the directory's start or end
    DirectoryBounds,
    // 5: an entry's offset or size
    EntryBounds(usize),
    // 6: an entry's name
    EntryName(usize),
    // 7: an entry number not below the count
    EntryNumber,
    // 10: the asked name is not a map name
    MapName,
    // 11: no such entry
    EntryMissing,
    // 12: the marker's size, or one of the ten lumps missing or misnamed, at a place
    MarkerRun(usize),
    // 20: a size that is no multiple of the record, at a place
    RecordSize(usize),
    // 21: a count outside the table, at a place
    RecordCount(usize),
    // 22: the length of REJECT
    RejectLength,
    // 23 to 27: a reference of a record
    LinedefReference(usize),
    SidedefReference(usize),
    SegReference(usize),
    SubsectorReference(usize),
    NodeReference(usize),
    // 28: BLOCKMAP, at a cell; its header at 0
    Blockmap(usize),
    // 30: fewer than 4 × N work words
    WorkWords,
    // 31: a loop of nodes
    NodeLoop,
    // 32: a node or subsector that two ways lead to
    NodeShared,
    // 40: descent and draw order, the size of NODES
    DescentNodes,
    // 41: descent and draw order, the count of subsectors
    DescentSubsectors,
    // 42: descent and draw order, a child that the walk comes to out of range, by the node that names it
    DescentChild(usize),
    // 43: descent, as many choices as nodes and still on a node
    DescentLoop,
    // 44: draw order, choices from the root about to pass more than 256 nodes
    OrderDepth,
    // 45: draw order, fewer than nodes + 1 words
    OrderWords,
    // 46: draw order, a list about to pass nodes + 1 entries
    OrderLength,
    // 50: a picture under 8 bytes
    PictureLength,
    // 51: a picture's width or height
    PictureSize,
    // 52: a picture's column offsets past the end
    PictureOffsets,
    // 53: a column's offset, post or end byte outside the lump
    PostBounds(usize),
    // 54: a post's rows
    PostRows(usize),
    // 55: a pixel buffer under width × height
    PixelBuffer,
    // 56: a picture to be written, its width or height
    EncodeSize,
    // 57: a picture to be written, a cover byte other than 0 and 1
    EncodeCover,
    // 58: a picture to be written, an output buffer under its length
    EncodeRoom,
    // 60: a record not wholly inside its lump
    RecordBounds,
    // 61: a field that the record's game lacks is not 0, or a Hexen special is over 255
    RecordFields,
    // 70: renumbering, a list that does not hold each reached node once
    RenumberNodes,
    // 71: renumbering, a child after its parent
    RenumberChild,
    // 72: renumbering, a list that does not end with the root
    RenumberRoot,
    // 73: renumbering, a list of another length than the reached nodes
    RenumberLength,
    // 74: renumbering, an output buffer under the new nodes
    RenumberRoom,
    // 75: differences, a list buffer under the numbers of changed records
    DifferenceRoom,
    // 76: differences, maps of two games
    DifferenceGames,
    // 80: sidedefs as they arrive, the count of sectors
    StreamSectors,
    // 81: sidedefs as they arrive, more bytes than a file has
    StreamLength,
    // 82: an index too short, or of another file
    IndexHead,
    // 83: an index of another version
    IndexVersion,
    // 84: an index that is not the directory's
    IndexEntries,
    // 85: why a map is judged as it is, an output buffer under what is printed
    ReasonRoom,
    // 86: building an index, records or output too short
    IndexRoom,
    // 90: a text map, a token that does not fit, at its first byte
    TextGrammar(usize),
    // 91: a text map, a number past its limits, at the value
    TextNumber(usize),
    // 92: a text map, a field without default missing, at the closing brace
    TextField(usize),
    // 93: a text map, more blocks of a kind than are allowed, at the block
    TextBlocks(usize),
    // 94: a text map, a number not below the count of its kind
    TextMissing,
}

// A row of the table: number, place and record. An unnamed part is 0.
#[derive(Clone, Copy)]
pub struct Row(pub u32, pub usize, pub usize);

// The refusal's row.
pub fn row_of(r: Refusal) -> Row
    ensures { result ≡ row_of r }
{
    match r {
        Refusal::FileLength => Row(1, 0, 0),
        Refusal::Mark => Row(2, 0, 0),
        Refusal::LumpCount => Row(3, 0, 0),
        Refusal::DirectoryBounds => Row(4, 0, 0),
        Refusal::EntryBounds(entry) => Row(5, 0, entry),
        Refusal::EntryName(entry) => Row(6, 0, entry),
        Refusal::EntryNumber => Row(7, 0, 0),
        Refusal::MapName => Row(10, 0, 0),
        Refusal::EntryMissing => Row(11, 0, 0),
        Refusal::MarkerRun(place) => Row(12, place, 0),
        Refusal::RecordSize(place) => Row(20, place, 0),
        Refusal::RecordCount(place) => Row(21, place, 0),
        Refusal::RejectLength => Row(22, 9, 0),
        Refusal::LinedefReference(linedef) => Row(23, 2, linedef),
        Refusal::SidedefReference(sidedef) => Row(24, 3, sidedef),
        Refusal::SegReference(seg) => Row(25, 5, seg),
        Refusal::SubsectorReference(subsector) => Row(26, 6, subsector),
        Refusal::NodeReference(node) => Row(27, 7, node),
        Refusal::Blockmap(cell) => Row(28, 10, cell),
        Refusal::WorkWords => Row(30, 7, 0),
        Refusal::NodeLoop => Row(31, 7, 0),
        Refusal::NodeShared => Row(32, 7, 0),
        Refusal::DescentNodes => Row(40, 0, 0),
        Refusal::DescentSubsectors => Row(41, 0, 0),
        Refusal::DescentChild(node) => Row(42, 0, node),
        Refusal::DescentLoop => Row(43, 0, 0),
        Refusal::OrderDepth => Row(44, 0, 0),
        Refusal::OrderWords => Row(45, 0, 0),
        Refusal::OrderLength => Row(46, 0, 0),
        Refusal::PictureLength => Row(50, 0, 0),
        Refusal::PictureSize => Row(51, 0, 0),
        Refusal::PictureOffsets => Row(52, 0, 0),
        Refusal::PostBounds(column) => Row(53, 0, column),
        Refusal::PostRows(column) => Row(54, 0, column),
        Refusal::PixelBuffer => Row(55, 0, 0),
        Refusal::EncodeSize => Row(56, 0, 0),
        Refusal::EncodeCover => Row(57, 0, 0),
        Refusal::EncodeRoom => Row(58, 0, 0),
        Refusal::RecordBounds => Row(60, 0, 0),
        Refusal::RecordFields => Row(61, 0, 0),
        Refusal::RenumberNodes => Row(70, 0, 0),
        Refusal::RenumberChild => Row(71, 0, 0),
        Refusal::RenumberRoot => Row(72, 0, 0),
        Refusal::RenumberLength => Row(73, 0, 0),
        Refusal::RenumberRoom => Row(74, 0, 0),
        Refusal::DifferenceRoom => Row(75, 0, 0),
        Refusal::DifferenceGames => Row(76, 0, 0),
        Refusal::StreamSectors => Row(80, 0, 0),
        Refusal::StreamLength => Row(81, 0, 0),
        Refusal::IndexHead => Row(82, 0, 0),
        Refusal::IndexVersion => Row(83, 0, 0),
        Refusal::IndexEntries => Row(84, 0, 0),
        Refusal::ReasonRoom => Row(85, 0, 0),
        Refusal::IndexRoom => Row(86, 0, 0),
        Refusal::TextGrammar(byte) => Row(90, 0, byte),
        Refusal::TextNumber(byte) => Row(91, 0, byte),
        Refusal::TextField(byte) => Row(92, 0, byte),
        Refusal::TextBlocks(byte) => Row(93, 0, byte),
        Refusal::TextMissing => Row(94, 0, 0),
    }
}

// The paper's number of a refusal.
pub fn number_of(r: Refusal) -> u32
    ensures { result ≡ number_of r }
{
    row_of(r).0
}

// The place of a refusal, 0 to 10.
pub fn place_of(r: Refusal) -> usize
    ensures { result ≡ place_of r }
{
    row_of(r).1
}

// The record number of a refusal.
pub fn record_of(r: Refusal) -> usize
    ensures { result ≡ record_of r }
{
    row_of(r).2
}

// A test as a check: passed, or refused with e.
pub fn pass_if<E: Drop>(ok: bool, e: E) -> Result<(), E>
    ensures { result ≡ unless ok e }
{
    if ok { Ok(()) } else { Err(e) }
}

// The first error among the checks of 0 to n - 1.
pub fn judge_each<E: Drop, F: Fn(usize) -> Result<(), E>>(n: usize, check: F) -> Result<(), E>
    requires { (i : ℕ) → i < n → F.pre check i }
    ensures { (f : ℕ → Result ⊤ E) → ((i : ℕ) (c : Result ⊤ E) → i < n → F.post check i c → c ≡ f i) → result ≡ each f n }
{
    for i in 0..n {
        check(i)?;
    }
    Ok(())
}
