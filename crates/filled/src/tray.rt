// The tray: which stops are filled, the times between them, and the groups of stops beside a stop.

ghost use Rattle.std.specs.Prelude.{◌≡◌, ℕ, ◌+◌, ◌*◌, ◌^◌, ◌≤◌, ◌<◌, length, get_or};
ghost use Rattle.tree.specs.Block.{beside_of};
ghost use Rattle.tree.specs.Neighbour.{trail};

// The tree of n = 2^k stops, which of them are filled, and the times between them: bit i of `filled` is stop i, and the table has row 'from'
// and column 'to'. The work space stays a parameter: a struct that held the `&mut` would be no plainer, since each contract would have to say too
// that it is still the same reference and the same tray; so how far its rows are made is asked by what reads them. A place and a stop stay numbers: that they are below n is
// asked where they are used, since n is the tray's and no type of places or stops could keep the fact.
#[derive(Clone, Copy)]
pub struct Tray<'a> {
    pub k: u16,
    pub n: usize,
    pub filled: u64,
    pub table: &'a [u32],
    ghost small: { k ≤ 6 },
    ghost stops: { n ≡ 2 ^ k },
    ghost inside: { filled < 2 ^ n },
    ghost square: { length table.now ≡ n * n },
    // The table's numbers have 32 bits.
    ghost times: { (a : ℕ) → get_or table.now a 0 < 2 ^ 32 },
}

// An aligned block of stops: its first, and how many.
#[derive(Clone, Copy)]
pub struct Group {
    pub first: usize,
    pub size: usize,
}

// The group beside stop i in place p, which is not 0: 2^t stops, where t is the number of trailing zero bits of p.
pub fn group_beside(p: usize, i: usize) -> Group
    requires { (0 < p) × (p < 64) × (i < 64) }
    ensures { (result.first ≡ beside_of i (trail p)) × (result.size ≡ 2 ^ trail p) }
{
    let t = p.trailing_zeros();
    Group {
        first: ((i >> t) ^ 1) << t,
        size: 1usize << t,
    }
}

impl Tray<'_> {
    ghost use Rattle.std.specs.Prelude.{◌≡◌, ◌&&◌, ◌+◌, ◌/◌, ◌%◌, ◌^◌, ◌<◌, ltb, length, get_or};
    ghost use Rattle.filled.specs.Table.{beside_filled};
    ghost use Rattle.filled.specs.Row.{filled_of, times_of};

    // Stop i is filled.
    pub fn is_filled(&self, i: usize) -> bool
        requires { i < self.now.n }
        ensures { result ≡ filled_of self.now i }
    {
        (self.filled >> i) % 2 == 1
    }

    // The stops i and i + 1 are filled.
    pub fn both_filled(&self, i: usize) -> bool
        requires { i + 1 < self.now.n }
        ensures { result ≡ (filled_of self.now i && filled_of self.now (i + 1)) }
    {
        self.is_filled(i) && self.is_filled(i + 1)
    }

    // One of the group's stops is filled.
    fn some_filled(&self, group: Group) -> bool
        requires { (group.first < 64) × (group.size < 64) }
        ensures { result ≡ ltb 0 (self.now.filled / 2 ^ group.first % 2 ^ group.size) }
    {
        0 < (self.filled >> group.first) % (1u64 << group.size)
    }

    // The group beside stop i in place p has a filled stop.
    pub fn beside_filled(&self, p: usize, i: usize) -> bool
        requires { (0 < p) × (p < self.now.n) × (i < self.now.n) }
        ensures { result ≡ beside_filled self.now.k (filled_of self.now) p i }
    {
        self.some_filled(group_beside(p, i))
    }

    // The time at a place of the table.
    pub fn time_at(&self, at: usize) -> u64
        requires { at < length self.now.table.now }
        ensures { (result ≡ get_or self.now.table.now at 0) × (result < 2 ^ 32) }
    {
        u64::from(self.table[at])
    }

    // What the move from one stop to another takes.
    pub fn time(&self, from: usize, to: usize) -> u64
        requires { (from < self.now.n) × (to < self.now.n) }
        ensures { (result ≡ times_of self.now from to) × (result < 2 ^ 32) }
    {
        self.time_at(from * self.n + to)
    }
}
