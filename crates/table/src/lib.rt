// The brick table: where it is, what each entry names, that it lies in the file (check 12), and that no two share a byte (check 13).
#![tactic(auto)]

ghost use Rattle.std.specs.Prelude.{MatchOption, IfSome, ◌≡◌, ◌+◌, ◌-◌, ◌*◌, ◌/◌, ◌%◌, ◌^◌, ◌≤◌, ◌<◌, min, length};
ghost use Rattle.table.specs.Entries.{kind_of, word_at, kind_at, outside_at, overlap, overlaps_at, lowest, stored_in, table_in};
ghost use Rattle.table.specs.Entries.{Width, Derived, Readable, Readable-prop};
ghost use Rattle.record.specs.Record.{header_of};
ghost use Rattle.table.specs.Windows.{offset_at, Inside, Scanned, Touched, NextStart};
ghost use Rattle.table.specs.declared.Kind.TheVariants.{Stored};

use endian::u64_at;
use geometry::table_start;
use record::{Record, brick_bytes_in, width_of};

// What an entry names. A constant's value is the unsigned number of its low item bytes.
#[derive(Clone, Copy)]
pub enum Kind {
    Missing,
    Constant(u32),
    Stored(u64),
}

// The brick table of a cube: where it starts and how many entries it has, with what an entry is judged by: where the
// headers end, and the bytes of a brick and of an item.
#[derive(Clone, Copy)]
pub struct Table {
    pub start: usize,
    pub count: usize,
    pub header: u64,
    pub brick: u64,
    pub width: u32,
}

// Every stored offset is below this: the top bit marks a constant.
const END: u64 = 9223372036854775808;

// The table of the cube with this record. That a record's numbers follow from its description stands at each function that rests on it, here and in the
// crates above, and not in the type, since a host may lend a record in any state. Opening has it of the record that it works out, report of the one that
// opening gives, bricks and regions of a lent one that passed check 14.
pub fn table_in(r: Record) -> Table
    requires { Derived r }
    ensures { result ≡ table_in r }
{
    let d = r.description;
    let start = table_start(u64::from(r.text), u64::from(r.alphas)) as usize;
    Table {
        start,
        count: r.bricks as usize,
        header: r.header,
        brick: brick_bytes_in(d),
        width: width_of(d.datatype),
    }
}

// The number in the low bytes of a word. That a width is 1, 2 or 4 stands at each function that reads or writes items: a table and a lattice have it as
// a number, since the format's sums multiply by it, and the loops that fill and gather items have it as a const parameter.
fn low_bytes(word: u64, width: u32) -> u32
    requires { Width width }
    ensures { result ≡ word % 256 ^ width }
{
    let span: u64 = 1 << (8 * width);
    (word % span) as u32
}

// What an entry with this word names, for items of this many bytes.
fn kind_of(word: u64, width: u32) -> Kind
    requires { Width width }
    ensures { result ≡ kind_of width word }
{
    match word {
        0 => Kind::Missing,
        1 => Kind::Constant(0),
        END.. => Kind::Constant(low_bytes(word, width)),
        _ => Kind::Stored(word),
    }
}

impl Kind {
    // The offset of a stored brick.
    pub fn offset(self) -> Option<u64>
        ensures { result ≡ stored_in self }
    {
        match self {
            Kind::Missing | Kind::Constant(_) => None,
            Kind::Stored(offset) => Some(offset),
        }
    }
}

// The entries of a table that lies in this file. That an entry is one of them stands at each method: an entry's number is counted, compared and
// answered, and a type of its own would be taken apart at each of these.
#[derive(Clone, Copy)]
pub struct Entries<'a> {
    pub file: &'a [u8],
    pub table: Table,
    ghost readable: { Readable table (length file.now) } by { Readable-prop table (length file.now) },
}

impl<'a> Entries<'a> {
    // The entries of the cube with this record, of a file that has all headers. That is asked of each function that is lent a record and its file
    // apart, as they meet in a call alone.
    pub fn of(file: &'a [u8], r: Record) -> Entries<'a>
        requires { Derived r × (header_of r.description r.text ≤ length file.now) }
        ensures table { result.table ≡ table_in r }
        ensures file { result.file.now ≡ file.now }
    {
        Entries {
            file,
            table: table_in(r),
        }
    }

    fn word(&self, entry: usize) -> u64
        requires { entry < self.now.table.count }
        ensures { result ≡ word_at self.now.table self.now.file.now entry }
    {
        u64_at(self.file, self.table.start + 8 * entry)
    }

    // What an entry names.
    pub fn kind(&self, entry: usize) -> Kind
        requires { entry < self.now.table.count }
        ensures { result ≡ kind_at self.now.table self.now.file.now entry }
    {
        kind_of(self.word(entry), self.table.width)
    }

    // The offset of an entry's brick, where it is stored.
    fn offset(&self, entry: usize) -> Option<u64>
        requires { entry < self.now.table.count }
        ensures offset { result ≡ stored_in (kind_at self.now.table self.now.file.now entry) }
        ensures small { IfSome result (λ o. (0 < o) × (o < 9223372036854775808)) }
    {
        self.kind(entry).offset()
    }

    // Check 12 of an entry. An offset is so far below the end of its type that no brick's end wraps.
    pub fn is_out_of_range(&self, entry: usize) -> bool
        requires { entry < self.now.table.count }
        ensures { result ≡ outside_at self.now.table self.now.file.now entry }
    {
        let header = self.table.header;
        let brick = self.table.brick;
        let length = self.file.len() as u64;
        self.offset(entry)
            .is_some_and(|offset| offset < header || length < offset + brick)
    }

    // Check 12: the lowest entry whose brick does not lie between the headers and the end of the file.
    pub fn lowest_out_of_range(&self) -> Option<usize>
        ensures { result ≡ lowest (outside_at self.now.table self.now.file.now) self.now.table.count }
    {
        (0..self.table.count).find(|entry| self.is_out_of_range(*entry))
    }

    // The brick of an entry overlaps that of a lower entry.
    fn overlaps_lower(&self, entry: usize) -> bool
        requires { entry < self.now.table.count }
        ensures { result ≡ overlaps_at self.now.table self.now.file.now entry }
    {
        let Some(offset) = self.offset(entry) else {
            return false;
        };
        let brick = self.table.brick;
        (0..entry).any(|lower| self
            .offset(lower)
            .is_some_and(|other| near(brick, other, offset)))
    }

    // The lowest entry below limit that overlaps a lower one, pair by pair.
    fn first_pair(&self, limit: usize) -> Option<usize>
        requires { limit ≤ self.now.table.count }
        ensures { result ≡ lowest (overlaps_at self.now.table self.now.file.now) limit }
    {
        (0..limit).find(|entry| self.overlaps_lower(*entry))
    }

    // The first entry below limit that overlaps a lower one, both inside the window from start.
    //
    // The window has a cell for each brick's length, and a spare one at each end. A cell holds the offset that falls in it:
    // two offsets that overlap fall in one cell or in neighbours. It holds 0 before: an Option in each cell takes twice the memory.
    fn scan(&self, limit: usize, start: u64) -> Option<usize>
        requires { (0 < self.now.table.brick) × (limit ≤ self.now.table.count) }
        ensures { Scanned (offset_at self.now.table self.now.file.now) self.now.table.brick start limit result }
    {
        let brick = self.table.brick;
        let mut cells = [0u64; 16384];
        for entry in 0..limit {
            if let Some(offset) = self.offset(entry)
                && let Some(c) = cell(brick, start, offset)
            {
                if touches(&cells, c, brick, offset) {
                    return Some(entry);
                }
                cells[c + 1] = offset;
            }
        }
        None
    }

    // The lowest stored offset at start or after it.
    fn next_start(&self, start: u64) -> Option<u64>
        ensures { NextStart (offset_at self.now.table self.now.file.now) self.now.table.count start result }
    {
        // The lowest so far and the end of all offsets are one number, so that each offset costs a comparison.
        let mut next = END;
        for entry in 0..self.table.count {
            if let Some(offset) = self.offset(entry)
                && start <= offset
            {
                next = next.min(offset);
            }
        }
        (next < END).then_some(next)
    }

    // Check 13: the lowest entry whose brick overlaps that of a lower entry.
    //
    // The file is searched one window after the other, each 16,382 bricks long. They step by a brick less, so that two
    // neighbouring cells are in one window whole. Only a vast and sparse file has more than 128 windows with a brick
    // in them: there the entries below the best so far are searched pair by pair, which bounds the time for any file.
    // Not inline: apart from its caller its loops keep their registers.
    #[inline(never)]
    pub fn lowest_overlap(&self) -> Option<usize>
        requires bricks { 0 < self.now.table.brick }
        requires in_range { lowest (outside_at self.now.table self.now.file.now) self.now.table.count ≡ None }
        ensures { result ≡ lowest (overlaps_at self.now.table self.now.file.now) self.now.table.count }
    {
        let mut best = None;
        let mut start = self.table.header;
        for _ in 0..128 {
            let limit = best.unwrap_or(self.table.count);
            best = self.scan(limit, start).or(best);
            // Every offset is far below the end of its type, so it matters little where a start stops that passes all of them.
            match self.next_start(start.saturating_add(16381 * self.table.brick)) {
                Some(next) => start = next,
                None => return best,
            }
        }
        let limit = best.unwrap_or(self.table.count);
        self.first_pair(limit).or(best)
    }
}

// What an entry of the table t in this file names. Beside the methods for callers that have a table and are lent the file apart, as a region's
// site is: a write changes the file.
pub fn kind_at(file: &[u8], t: Table, entry: usize) -> Kind
    requires { Readable t (length file.now) × (entry < t.count) }
    ensures { result ≡ kind_at t file.now entry }
{
    Entries { file, table: t }.kind(entry)
}

// Check 12 of an entry of the table t in this file. No crate here calls it: it stays for what it promises, beside `kind_at`.
pub fn out_of_range(file: &[u8], t: Table, entry: usize) -> bool
    requires { Readable t (length file.now) × (entry < t.count) }
    ensures { result ≡ outside_at t file.now entry }
{
    Entries { file, table: t }.is_out_of_range(entry)
}

// Stored bricks at two offsets have a byte in common. These and the scan go by the length of a brick and the start of a window, two numbers: a struct of
// both and of the cells would be lent to be changed for each of the 16384 cells that the scan fills, and say nothing of them.
fn near(brick: u64, left: u64, right: u64) -> bool
    ensures { result ≡ overlap brick (Stored left) (Stored right) }
{
    right.abs_diff(left) < brick
}

// The cell of a stored offset in the window from start: how many bricks' lengths it lies after the start.
fn cell(brick: u64, start: u64, offset: u64) -> Option<usize>
    requires { (0 < brick) × (brick ≤ 4294967296) × (0 < offset) }
    ensures { MatchOption result (Inside brick start offset → ⊥) (λ c. Inside brick start offset × (c ≡ (offset - start) / brick) × (c < 16382)) }
{
    let past = offset
        .checked_sub(start)
        .filter(|past| *past < 16382 * brick)?;
    Some((past / brick) as usize)
}

// One of the cells c to c + 2 holds an offset that overlaps this one.
fn touches(cells: &[u64; 16384], c: usize, brick: u64, offset: u64) -> bool
    requires { (c < 16382) × (0 < offset) }
    ensures { Touched cells.now c brick offset result }
{
    cells[c..c + 3]
        .iter()
        .any(|held| *held != 0 && near(brick, *held, offset))
}
