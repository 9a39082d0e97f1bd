// The marker and the ten names after it, refusal 12, and the game by the name after these.
ghost use Rattle.std.specs.Prelude.{◌≡◌, ◌+◌, ◌*◌, ◌<◌, ◌≤◌, length};
ghost use Rattle.map_lumps.specs.Lumps.{each_place};
ghost use Rattle.map_lumps.specs.Run.{named_ok, place_check, run_check};
ghost use Rattle.map_lumps.specs.Games.{game_at, game_answer};

use refusal::Refusal;

#[derive(Clone, Copy, Debug, PartialEq, Eq)]
pub enum Game {
    Doom,
    Hexen,
}

// A map's marker: an entry of a file's directory.
#[derive(Clone, Copy)]
pub struct Marker<'a> {
    pub dir: &'a [u8],
    pub count: usize,
    pub entry: usize,
    pub ghost listed: { 16 * count ≤ length dir.now },
    pub ghost present: { entry < count },
}

impl Marker<'_> {
    // Whether the n-th entry behind the marker is there and has the name.
    fn is_followed(&self, n: usize, name: &[u8]) -> bool
        requires { (n ≤ 11) × (length name.now ≡ 8) }
        ensures { result ≡ named_ok self.now.dir.now self.now.count (self.now.entry + n) name.now }
    {
        let i = self.entry + n;
        if i < self.count {
            return name::same_name(wad::part(self.dir, 16 * i + 8, 8), name);
        }
        false
    }

    fn judge_place(&self, place: usize) -> Result<(), Refusal>
        requires { (1 ≤ place) × (place ≤ 10) }
        ensures { result ≡ place_check self.now.dir.now self.now.count self.now.entry place }
    {
        let name = record_table::lump_name(place);
        refusal::pass_if(self.is_followed(place, &name), Refusal::MarkerRun(place))
    }

    fn judge_places(&self) -> Result<(), Refusal>
        ensures { result ≡ each_place (place_check self.now.dir.now self.now.count self.now.entry) 10 }
    {
        refusal::judge_each(10, |i| self.judge_place(i + 1))
    }

    // 12 in place order.
    pub fn judge_run(&self) -> Result<(), Refusal>
        ensures { result ≡ run_check self.now.dir.now self.now.count self.now.entry }
    {
        let empty = wad::entry_size(self.dir, self.entry) == 0;
        refusal::pass_if(empty, Refusal::MarkerRun(0))?;
        self.judge_places()
    }

    // Whether the map is Hexen's, else Doom's: the eleventh entry behind the marker is BEHAVIOR. It stays a bool, as C's structs
    // and the record crates' functions take it (`hexen`).
    pub fn is_hexen(&self) -> bool
        ensures { result ≡ game_at self.now.dir.now self.now.count self.now.entry }
    {
        self.is_followed(11, b"BEHAVIOR")
    }
}

// The game of the map whose marker is an entry, 1 to 7. Nothing is asked of the entry itself.
pub fn map_game(wad: &[u8], marker: usize) -> Result<Game, Refusal>
    ensures { result ≡ game_answer wad.now marker }
{
    wad::judge_file(wad)?;
    let count = wad::entry_count(wad);
    if count <= marker {
        return Err(Refusal::EntryNumber);
    }
    let marker = Marker {
        dir: wad::directory_of(wad),
        count,
        entry: marker,
    };
    if marker.is_hexen() {
        return Ok(Game::Hexen);
    }
    Ok(Game::Doom)
}
