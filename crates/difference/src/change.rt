// The records of a lump against those of an older one (W-213), in blocks: where all bytes of a block are the same, its records are not
// looked at one by one.
ghost use Rattle.std.specs.Prelude.{◌≡◌, true, ◌&&◌, ◌+◌, ◌-◌, ◌≤◌, ◌<◌, leb, length, take, drop};
ghost use Rattle.name.specs.Names.{same_bytes};
ghost use Rattle.difference.specs.Records.{count_in, changed, changes};
ghost use Rattle.difference.specs.Inner.Changes.{NoneChanged, changes_from, begun_with};

// The most records of a block.
const BLOCK: usize = 64;

// A lump of records, each of `size` bytes, and the older lump.
#[derive(Clone, Copy)]
pub struct Versions<'a, 'b> {
    pub old: &'a [u8],
    pub new: &'b [u8],
    pub size: usize,
    ghost has_size: { 0 < size },
}

// A block is i and n of one turn of the loops below, so the methods ask that it lies in the new lump.
impl<'a, 'b> Versions<'a, 'b> {
    // Whether the old lump has the bytes `from` to `to` too, and the same.
    fn same(&self, from: usize, to: usize) -> bool
        requires { (from ≤ to) × (to ≤ length self.now.new.now) }
        ensures { result
            ≡ (leb to (length self.now.old.now) && same_bytes (take (to - from) (drop from self.now.old.now)) (take (to - from) (drop from self.now.new.now))) }
    {
        match self.old.get(from..to) {
            Some(bytes) => bytes == &self.new[from..to],
            None => false,
        }
    }

    // Whether a record of the new lump is missing in the old one, or another there.
    fn is_changed(&self, i: usize) -> bool
        requires { i < count_in self.now.size self.now.new.now }
        ensures { result ≡ changed self.now.size self.now.old.now self.now.new.now i }
    {
        let at = self.size * i;
        match self.old.get(at..at + self.size) {
            Some(old) => !same_bytes(old, &self.new[at..at + self.size]),
            None => true,
        }
    }

    // Whether the old lump has all of a block's records, and the same.
    fn same_block(&self, i: usize, n: usize) -> bool
        requires { i + n ≤ count_in self.now.size self.now.new.now }
        ensures { result ≡ true → NoneChanged self.now.size self.now.old.now self.now.new.now i n }
    {
        self.same(self.size * i, self.size * (i + n))
    }

    fn count_block(&self, i: usize, n: usize) -> usize
        requires { i + n ≤ count_in self.now.size self.now.new.now }
        ensures { result ≡ length (changes_from self.now.size self.now.old.now self.now.new.now i n) }
    {
        if self.same_block(i, n) {
            return 0;
        }
        (i..i + n).filter(|j| self.is_changed(*j)).count()
    }

    // How many records of the new lump are changed.
    pub fn count_changes(&self) -> usize
        ensures { result ≡ length (changes self.now.size self.now.old.now self.now.new.now) }
    {
        let all = self.new.len() / self.size;
        let mut count: usize = 0;
        for i in (0..all).step_by(BLOCK) {
            count += self.count_block(i, BLOCK.min(all - i));
        }
        count
    }

    // The numbers of a block's changed records, into the front of the list, and how many they are.
    fn write_block(&self, i: usize, n: usize, list: &mut [u16]) -> usize
        requires in_lump { (i + n ≤ count_in self.now.size self.now.new.now) × (count_in self.now.size self.now.new.now ≤ 65535) }
        requires room { length (changes_from self.now.size self.now.old.now self.now.new.now i n) ≤ length list.old }
        ensures value { result ≡ length (changes_from self.now.size self.now.old.now self.now.new.now i n) }
        ensures list_after { list.new ≡ begun_with (changes_from self.now.size self.now.old.now self.now.new.now i n) list.old }
    {
        if self.same_block(i, n) {
            return 0;
        }
        // `list.iter_mut().zip(..)` would not tell how many there were, so that the place is counted
        let mut count = 0;
        for j in 0..n {
            if self.is_changed(i + j) {
                list[count] = (i + j) as u16;
                count += 1;
            }
        }
        count
    }

    // The numbers of all changed records, into the front of the list, and how many they are.
    pub fn write_changes(&self, list: &mut [u16]) -> usize
        requires { (count_in self.now.size self.now.new.now ≤ 65535) × (length (changes self.now.size self.now.old.now self.now.new.now) ≤ length list.old) }
        ensures value { result ≡ length (changes self.now.size self.now.old.now self.now.new.now) }
        ensures list_after { list.new ≡ begun_with (changes self.now.size self.now.old.now self.now.new.now) list.old }
    {
        let all = self.new.len() / self.size;
        let mut count = 0;
        for i in (0..all).step_by(BLOCK) {
            count += self.write_block(i, BLOCK.min(all - i), &mut list[count..]);
        }
        count
    }
}

// Whether two runs of one length have the same bytes. The loop is by hand: at records of four bytes `==` takes 1.4 to 1.8 of its time,
// since it is a call, and `zip` with `any` 1.2 to 2.3 at records of any size.
fn same_bytes(old: &[u8], new: &[u8]) -> bool
    requires { length old.now ≡ length new.now }
    ensures { result ≡ same_bytes old.now new.now }
{
    for i in 0..old.len() {
        if old[i] != new[i] {
            return false;
        }
    }
    true
}
