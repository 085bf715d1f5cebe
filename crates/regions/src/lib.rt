// The checks of a call on a region, in the order of FORMAT 10.1: 14, 15, 16, 18, 12 over the touched entries, then 19 for writes.
// All are done before a byte moves. Their cost grows with the bricks that the region touches, never with the cube.
#![tactic(auto)]

ghost use Rattle.std.specs.Prelude.{◌≡◌, false, Bool, true, ◌&&◌, ◌+◌, ◌*◌, ◌≤◌, ◌<◌, leb, length};
ghost use Rattle.std.specs.List.{find};
ghost use Rattle.geometry.specs.Limits.{level_cap};
ghost use Rattle.geometry.specs.Geometry.{extent};
ghost use Rattle.record.specs.declared.Refusal.TheVariants as refusal;
ghost use Rattle.runs.specs.Runs.{Allowed};
ghost use Rattle.checks.specs.Checks.{side_ok};
ghost use Rattle.table.specs.Entries.{breaks12};
ghost use Rattle.cube.specs.Regions.{size_of, in_extent, touches, unless_touched, is_stored, region_verdict, raw_verdict, float_verdict, write_verdict};
ghost use Rattle.regions.specs.Search.{fails, row_from, layer_from, entries_in, LayerBelow, Below, along_of, block_of, Passed, rest};

use checks::check14_with;
use cube::Region;
use geometry::{entry_at, extent_at};
use record::{Record, Refusal, width_of};
use runs::{index, level_in, over};
use table::{Entries, Kind};

// The bricks that a run of samples touches in a direction.
#[derive(Clone, Copy)]
struct Along {
    first: u64,
    span: u64,
}

// The entries that a region touches: the first, how many in each direction, and how far apart neighbours are.
#[derive(Clone, Copy)]
struct Block {
    first: u64,
    inline: u64,
    crossline: u64,
    vertical: u64,
    row: u64,
    layer: u64,
}

// A run has a sample and lies in the level's extent. A start and a count of 32 bits each are added in 64.
fn run_inside(start: u32, count: u32, size: u32, level: u32) -> bool
    requires { (1 ≤ size) × (level ≤ level_cap) }
    ensures { result ≡ leb 1 count && leb (start + count) (extent size level) }
{
    (1 <= count) & (u64::from(start) + u64::from(count) <= extent_at(size, u64::from(level)))
}

// The region lies in its level.
fn in_extent(r: Record, g: Region) -> bool
    requires { Allowed r g }
    ensures { result ≡ in_extent r g }
{
    let size = r.description.size;
    run_inside(g.start[0], g.count[0], size[0], g.level)
        & run_inside(g.start[1], g.count[1], size[1], g.level)
        & run_inside(g.start[2], g.count[2], size[2], g.level)
}

// The bricks of this side that a run touches.
fn bricks_along(side: u32, start: u32, count: u32) -> Along
    requires { (side_ok side ≡ true) × (1 ≤ count) }
    ensures { result ≡ along_of side start count }
{
    let s = index(side);
    let first = over(index(start), s);
    let last = over(index(start) + index(count) - 1, s);
    Along {
        first: first as u64,
        span: (last - first + 1) as u64,
    }
}

fn is_stored(kind: Kind) -> bool
    ensures { result ≡ is_stored kind }
{
    kind.offset().is_some()
}

// A check of an entry. The searches are generic in it, and are loops that return: over `find` and `find_map`, with the check as a closure, they proved
// too, and a read of one trace took 7 % more instructions and went from 1.09 to 1.13 of plain Rust, where the goal is 1.1.
trait EntryCheck {
    // It is check 19, and not check 12.
    ghost stored: { Bool };

    fn fails(entries: &Entries, entry: u64) -> bool
        requires { entry < entries.now.table.count }
        ensures { result ≡ fails stored entries.now.table entries.now.file.now entry };
}

struct RangeCheck;

struct StoredCheck;

impl EntryCheck for RangeCheck {
    ghost stored = { false };

    fn fails(entries: &Entries, entry: u64) -> bool {
        entries.is_out_of_range(entry as usize)
    }
}

impl EntryCheck for StoredCheck {
    ghost stored = { true };

    fn fails(entries: &Entries, entry: u64) -> bool {
        !is_stored(entries.kind(entry as usize))
    }
}

// The first entry that fails, of a row along inline from this entry on.
fn search_row<C: EntryCheck>(entries: &Entries, from: u64, count: u64) -> Option<u32>
    requires { from + count ≤ entries.now.table.count }
    ensures { result ≡ find (fails C.stored entries.now.table entries.now.file.now) (row_from from count) }
{
    for x in 0..count {
        if C::fails(entries, from + x) {
            return Some((from + x) as u32);
        }
    }
    None
}

// The first that fails of the rows of a layer, one after the other crossline.
fn search_layer<C: EntryCheck>(entries: &Entries, b: Block, from: u64) -> Option<u32>
    requires { (from ≤ entries.now.table.count) × LayerBelow b from entries.now.table.count }
    ensures { result ≡ find (fails C.stored entries.now.table entries.now.file.now) (layer_from b from) }
{
    for y in 0..b.crossline {
        let found = search_row::<C>(entries, from + y * b.row, b.inline);
        if found.is_some() {
            return found;
        }
    }
    None
}

// The first that fails of the layers of a block, one after the other vertical.
fn search<C: EntryCheck>(entries: &Entries, b: Block) -> Option<u32>
    requires { Below b entries.now.table.count }
    ensures { result ≡ find (fails C.stored entries.now.table entries.now.file.now) (entries_in b) }
{
    for z in 0..b.vertical {
        let found = search_layer::<C>(entries, b, b.first + z * b.layer);
        if found.is_some() {
            return found;
        }
    }
    None
}

// A file, its record and a region of it that checks 14, 15 and 16 let pass: what the checks after them go by.
#[derive(Clone, Copy)]
struct Checked<'a> {
    file: &'a [u8],
    r: Record,
    g: Region,
    ghost passed: { Passed r g },
    ghost whole: { r.length ≡ length file.now },
}

impl<'a> Checked<'a> {
    // The room that the region takes, of `item` a sample: its width in bytes, or 1 where room counts floats.
    fn needed(&self, item: u32) -> u64
        requires { item ≤ 4 }
        ensures { result ≡ size_of self.now.g * item }
    {
        let count = self.g.count;
        u64::from(count[0]) * u64::from(count[1]) * u64::from(count[2]) * u64::from(item)
    }

    // The entries that the region touches.
    fn block(&self) -> Block
        ensures { result ≡ block_of self.now.r self.now.g }
    {
        let r = self.r;
        let g = self.g;
        let side = r.description.side;
        let v = level_in(r.description, r.bricks, g.level);
        let x = bricks_along(side[0], g.start[0], g.count[0]);
        let y = bricks_along(side[1], g.start[1], g.count[1]);
        let z = bricks_along(side[2], g.start[2], g.count[2]);
        Block {
            first: entry_at(v, x.first, y.first, z.first),
            inline: x.span,
            crossline: y.span,
            vertical: z.span,
            row: v.inline,
            layer: v.inline * v.crossline,
        }
    }

    // Checks 12 and, for a write, 19 over the touched entries. Whether it is a write is a bool, as in the definition of what comes after check 12.
    fn check_entries(&self, write: bool) -> Result<(), Refusal>
        ensures { result ≡ unless_touched self.now.r refusal.Range (touches self.now.r self.now.g) (breaks12 self.now.r self.now.file.now) (rest write self.now.r self.now.file.now self.now.g) }
    {
        let entries = Entries::of(self.file, self.r);
        let b = self.block();
        if let Some(entry) = search::<RangeCheck>(&entries, b) {
            return Err(Refusal::Range(entry));
        }
        if !write {
            return Ok(());
        }
        match search::<StoredCheck>(&entries, b) {
            Some(entry) => Err(Refusal::NotStored(entry)),
            None => Ok(()),
        }
    }
}

// The checks of a call on a region. A sample takes `item` of what room counts, bytes or floats. File, record, region and room come as the three calls
// lend them; `Checked` holds them together once something is known of them.
fn check_region(
    file: &[u8],
    r: Record,
    g: Region,
    room: usize,
    item: u32,
    write: bool,
) -> Result<(), Refusal>
    requires { item ≤ 4 }
    ensures { result ≡ region_verdict r file.now g room (size_of g * item) (rest write r file.now g) }
{
    if check14_with(r, file.len() as u64) {
        return Err(Refusal::Record);
    }
    if r.levels <= g.level {
        return Err(Refusal::Level);
    }
    if !in_extent(r, g) {
        return Err(Refusal::Index);
    }
    let checked = Checked { file, r, g };
    if (room as u64) < checked.needed(item) {
        return Err(Refusal::Room);
    }
    checked.check_entries(write)
}

// The checks of a raw read into a buffer of room bytes.
pub fn raw_verdict(file: &[u8], r: Record, g: Region, room: usize) -> Result<(), Refusal>
    ensures { result ≡ raw_verdict r file.now g room }
{
    check_region(file, r, g, room, width_of(r.description.datatype), false)
}

// The checks of a float read into a buffer of room floats.
pub fn float_verdict(file: &[u8], r: Record, g: Region, room: usize) -> Result<(), Refusal>
    ensures { result ≡ float_verdict r file.now g room }
{
    check_region(file, r, g, room, 1, false)
}

// The checks of a write of room lent bytes.
pub fn write_verdict(file: &[u8], r: Record, g: Region, room: usize) -> Result<(), Refusal>
    ensures { result ≡ write_verdict r file.now g room }
{
    check_region(file, r, g, room, width_of(r.description.datatype), true)
}
