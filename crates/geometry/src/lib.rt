// Levels, brick counts, extents, entry numbers and the header's end, on numbers alone.
// These are inner leaves: callers have checked sides and sizes before, so that nothing here can wrap.
#![tactic(auto)]

ghost use Rattle.std.specs.Prelude.{◌≡◌, ◌+◌, ◌*◌, ◌^◌, ◌≤◌, ◌<◌};
ghost use Rattle.endian.specs.Loops.{sum_to};
ghost use Rattle.geometry.specs.Limits.{greatest_exponent, power_in, level_cap, longest_text, side_room, bytes_room, brick_room};
ghost use Rattle.geometry.specs.Geometry.{ceil_div, extent, count_at, bricks_in, alphas_in, level_at, shape_in, entry_at, brick_bytes, table_start, header_end, Power, Sizes};
ghost use Rattle.geometry.specs.Laws.{EntryNumbers, LevelsCover, HalvingRule};

// Where the text starts: after the file header and InfoHeader.
pub const TEXT_START: usize = 346;

// The exponents of a side, a power of two.
pub const LEAST_EXPONENT: u32 = 2;

pub const GREATEST_EXPONENT: u32 = 6;

// The largest size, the most bricks of all levels, and the shortest and the longest text.
pub const SIZE_LIMIT: u32 = 1048576;

pub const BRICK_LIMIT: u64 = 16384;

pub const SHORTEST_TEXT: u32 = 5;

pub const LONGEST_TEXT: u32 = 65536;

// The levels that are searched for the last one: at level 20 one sample is left of the largest size.
const LEVEL_CAP: u64 = 20;

// Levels, and the bricks and alpha tiles of all levels.
#[derive(Clone, Copy)]
pub struct Shape {
    pub levels: u64,
    pub bricks: u64,
    pub alphas: u64,
}

// What numbers the bricks of a level: the entries before it, and its bricks inline and crossline.
#[derive(Clone, Copy)]
pub struct Level {
    pub base: u64,
    pub inline: u64,
    pub crossline: u64,
}

// A cube's sizes and brick sides, with which no count, sum or product wraps.
#[derive(Clone, Copy)]
pub struct Volume {
    pub size: [u32; 3],
    pub side: [u32; 3],
    pub ghost sizes: { Sizes size side },
}

// Whether n is 2^e for an e from `least` to the greatest exponent: n's zeros are the only e that it can be.
pub fn power_in(least: u32, n: u32) -> bool
    requires { least ≤ greatest_exponent }
    ensures { result ≡ power_in least n }
{
    let e = n.trailing_zeros();
    (least..=GREATEST_EXPONENT).contains(&e) && n == 1 << e
}

// n / d, rounded up, for any divisor. Levels are counted by shifts (`ceil_shift`), and no code here calls this: it stays, with its edit `ceil_rounded_down`,
// for what it promises, the definition that the shifts are proved equal to.
pub fn ceil_div(n: u64, d: u64) -> u64
    requires { (0 < d) × (n + d ≤ 18446744073709551615) }
    ensures { result ≡ ceil_div n d }
{
    n.div_ceil(d)
}

// n / 2^k, rounded up, by one shift and one sum. Of n samples the last is number n - 1, and it lies in part (n - 1) / 2^k, both counted
// from 0.
fn ceil_shift(n: u64, k: u64) -> u64
    requires { (1 ≤ n) × (k < 64) }
    ensures { result ≡ ceil_div n (2 ^ k) }
{
    ((n - 1) >> k) + 1
}

// A level's extent in samples, in a direction of this size: size / 2^l, rounded up. That the level is at most the cap stands at each function that
// shifts by it: loops over all levels up to the cap call the others, where a type of a level would only be built and taken apart at each step.
pub fn extent_at(size: u32, l: u64) -> u64
    requires { (1 ≤ size) × (l ≤ level_cap) }
    ensures { result ≡ extent size l }
{
    ceil_shift(u64::from(size), l)
}

// A level's bricks in a direction of this size and brick side: size / (side x 2^l), rounded up. A side is a power of two, so this is
// the extent's sum and shift, with the side's zeros added to the shift. That it is also the extent / side, rounded up, and the halving
// from level to level, says `halving_rule`. It is no method of `Volume`, which would take a direction's number and ask that there is one.
fn count_at(size: u32, side: u32, l: u64) -> u64
    requires { (1 ≤ size) × Power side × (l ≤ level_cap) }
    ensures { result ≡ count_at size side l }
{
    ceil_shift(u64::from(size), u64::from(side.trailing_zeros()) + l)
}

impl Volume {
    // The alpha tiles of a level: one for each column of bricks.
    fn alphas_at(self, l: u64) -> u64
        requires { l ≤ level_cap }
        ensures { result ≡ alphas_in self.size self.side l }
    {
        count_at(self.size[0], self.side[0], l) * count_at(self.size[1], self.side[1], l)
    }

    // The bricks of a level.
    fn bricks_at(self, l: u64) -> u64
        requires { l ≤ level_cap }
        ensures { result ≡ bricks_in self.size self.side l }
    {
        self.alphas_at(l) * count_at(self.size[2], self.side[2], l)
    }

    // The bricks of the levels below n.
    fn bricks_below(self, n: u64) -> u64
        requires { n ≤ level_cap + 1 }
        ensures { result ≡ sum_to (bricks_in self.size self.side) n }
    {
        let mut sum = 0;
        for l in 0..n {
            sum += self.bricks_at(l);
        }
        sum
    }

    // Its levels go to the first with one brick.
    pub fn shape(self) -> Shape
        ensures { result ≡ shape_in self.size self.side }
    {
        let mut bricks = 0;
        let mut alphas = 0;
        for l in 0..LEVEL_CAP {
            let here = self.bricks_at(l);
            bricks += here;
            alphas += self.alphas_at(l);
            if here == 1 {
                return Shape {
                    levels: l + 1,
                    bricks,
                    alphas,
                };
            }
        }
        unreachable!()
    }

    // Level l of a cube that has `total` bricks in all. The highest level's entries come first, so those before level l are
    // all but the entries of the levels up to l.
    pub fn level(self, total: u64, l: u64) -> Level
        requires { (l < (shape_in self.size self.side).levels) × (total ≡ (shape_in self.size self.side).bricks) }
        ensures { result ≡ level_at self.size self.side l }
    {
        Level {
            base: total - self.bricks_below(l + 1),
            inline: count_at(self.size[0], self.side[0], l),
            crossline: count_at(self.size[1], self.side[1], l),
        }
    }
}

// The entry number of brick (i, j, k) of a level: inline runs fastest and vertical slowest.
pub fn entry_at(v: Level, i: u64, j: u64, k: u64) -> u64
    requires { (i < v.inline) × (entry_at v i j k ≤ 18446744073709551615) }
    ensures { result ≡ entry_at v i j k }
{
    v.base + ((k * v.crossline + j) * v.inline + i)
}

// The bytes of a brick with these sides and items of w bytes. The sides come one by one and 64 bits wide, as its definition takes them: the [u32; 3] that
// callers have would ask more of a caller, and docs/ARCHITECTURE.md names the function.
pub fn brick_bytes(s0: u64, s1: u64, s2: u64, w: u64) -> u64
    requires { (s0 ≤ side_room) × (s1 ≤ side_room) × (s2 ≤ side_room) × (w ≤ 4) }
    ensures { (result ≡ brick_bytes s0 s1 s2 w) × (result ≤ bytes_room) }
{
    s0 * s1 * s2 * w
}

// Where the brick table starts: after the text, the histogram and the alpha table. A cast, as `u64` has no From of a usize. A text's length is a number of
// a record or of a call, which check 9 judges there: that it has passed is asked of the number, here and wherever it is counted with.
pub fn table_start(text: u64, alpha: u64) -> u64
    requires { (text ≤ longest_text) × (alpha ≤ brick_room) }
    ensures { result ≡ table_start text alpha }
{
    TEXT_START as u64 + text + 2064 + 8 * alpha
}

// The end of the headers, where the brick table ends. It takes the counts as numbers, as its definition does. docs/ARCHITECTURE.md names it, so it would
// stay beside a method of `Shape`, which would only call it.
pub fn header_end(text: u64, alpha: u64, brick: u64) -> u64
    requires { (text ≤ longest_text) × (alpha ≤ brick_room) × (brick ≤ brick_room) }
    ensures { result ≡ header_end text alpha brick }
{
    table_start(text, alpha) + 8 * brick
}

// What every entry number owes, stated where a reader of the source finds it. The function does nothing; its contract is the theorem.
pub fn entry_numbers()
    ensures { EntryNumbers }
{}

// That a level's bricks cover its extent, that the halving is one division, and that it goes on to the first level with one brick: a theorem too.
pub fn levels_cover()
    ensures { LevelsCover }
{}

// That a level's bricks in a direction are one number three ways, for every allowed size and side and every level that a cube with them
// has: worked out directly, as the code does it; halved from level to level, as FORMAT 4.2 says it; and as the level's
// extent / side, rounded up. A theorem too.
pub fn halving_rule()
    ensures { HalvingRule }
{}
