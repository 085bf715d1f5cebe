// Raw reads: the bytes of a region's samples, vertical fastest and inline slowest, into the front of a lent buffer.
// The region is read brick by brick: one entry is looked up for each brick that it touches, and of each brick a box is copied,
// row by row or in longer runs. So the work grows with the region alone.
#![tactic(auto)]

ghost use Rattle.std.specs.Prelude.{[], ◌∷◌, ◌≡◌, ◌*◌, ◌≤◌, length};
ghost use Rattle.endian.specs.Loops.{cat};
ghost use Rattle.endian.specs.Bytes.{lows};
ghost use Rattle.table.specs.Entries.{Width};
ghost use Rattle.record.specs.Answers.{Taken};
ghost use Rattle.cube.specs.Places.{item_bytes, rows_of};
ghost use Rattle.cube.specs.Calls.{raw_read, raw, answer_of, buffers_after};
ghost use Rattle.cube.specs.Regions.{size_of, raw_rows, raw_verdict, over};
ghost use Rattle.runs.specs.Views.{IsCorner, Roomy, Filled};
ghost use Rattle.reading.specs.Items.{OneRun, raw_items, raw_at};
ghost use Rattle.reading.specs.Laws.{raw_laws};

use cube::Region;
use endian::copy;
use record::{Record, Refusal};
use regions::raw_verdict;
use runs::site::{BrickBox, Corner, Site, View};
use runs::walk::{Items, Reader, read_bricks, read_inlines};
use runs::{index, lattice_of};
use table::Kind;

// n items of one value, each of its low W bytes, into a part that has room for just these, which each function here asks of the part that it is lent.
// They go by number: after `chunks_exact_mut` a proof knows no byte of a chunk.
fn fill<const W: usize>(out: &mut [u8], value: u32, n: usize)
    requires { (W ≤ 4) × (length out.old ≡ n * W) }
    ensures { out.new ≡ cat n (λ t. lows W value) }
{
    let bytes = value.to_le_bytes();
    let item = &bytes[..W];
    for t in 0..n {
        let a = t * W;
        let e = a + W;
        copy(&mut out[a..e], item);
    }
}

// The same for a width that a record says, which has a loop of its own.
fn fill_items(out: &mut [u8], value: u32, n: usize, w: usize)
    requires { Width w × (length out.old ≡ n * w) }
    ensures { out.new ≡ cat n (λ t. lows w value) }
{
    match w {
        1 => fill::<1>(out, value, n),
        2 => fill::<2>(out, value, n),
        _ => fill::<4>(out, value, n),
    }
}

// Samples as their items' bytes.
struct Raw;

impl Items for Raw {
    type Element = u8;

    ghost width = { item_bytes };

    ghost sample = { raw_at };

    ghost items = { raw_items };

    ghost laws = { raw_laws };

    ghost fits = { λ _ _. Unit {0} };

    fn elements(&self, v: &View) -> usize {
        index(v.site.lattice.width)
    }

    fn read_items(&self, out: &mut [u8], v: &View, corner: Corner, n: usize) {
        let q = v.site.lattice;
        let w = index(q.width);
        match corner.kind {
            Kind::Missing => fill_items(out, q.missing.value, n, w),
            Kind::Constant(value) => fill_items(out, value, n, w),
            Kind::Stored(offset) => {
                let p = offset as usize + corner.item * w;
                let e = p + n * w;
                copy(out, &v.file[p..e]);
            }
        }
    }
}

// The inlines of a box of which each is one run, in its brick and in the region. A loop over its rows would cost more than they do. Float reads have the
// same frame around a strip, which asks for another kind of box: one loop for both would take the leaf, its count and what it asks as a third trait.
fn read_runs(out: &mut [u8], v: &View, corner: Corner, b: BrickBox)
    requires room { Roomy item_bytes v.now out.old }
    requires corner { IsCorner v.now corner b }
    requires run { OneRun v.now b }
    ensures { Filled item_bytes raw_at v.now b.i b.j b.k out.old out.new }
{
    let q = v.site.lattice;
    let w = index(q.width);
    let plane = q.side1 * q.side2;
    let n = b.j.n * b.k.n;
    for t in 0..b.i.n {
        let a = v.sample_no(b.i.at + t, b.j.at, b.k.at) * w;
        let e = a + n * w;
        let on = Corner {
            kind: corner.kind,
            item: corner.item + t * plane,
        };
        Raw.read_items(&mut out[a..e], v, on, n);
    }
}

impl Reader for Raw {
    // One row is one run, as in a crossline section, and so are whole columns of a brick that are the region's whole columns.
    fn read_box(&self, out: &mut [u8], v: &View, b: BrickBox) {
        let q = v.site.lattice;
        let corner = v.corner(b);
        if b.j.n == 1 || (b.k.n == q.side2 && b.k.n == q.count2) {
            read_runs(out, v, corner, b);
        } else {
            read_inlines(out, v, self, corner, b);
        }
    }
}

// A region that its checks took: its bytes into the front of the buffer, whose tail stays. It answers how many they are.
fn read_region(out: &mut [u8], file: &[u8], r: Record, g: Region) -> usize
    requires { raw_verdict r file.now g (length out.old) ≡ Taken }
    ensures count { result ≡ size_of g * item_bytes r }
    ensures buffer { out.new ≡ over (raw_rows r (rows_of r file.now) g) out.old }
{
    let q = lattice_of(r, g);
    let n = q.count0 * (q.count1 * (q.count2 * index(q.width)));
    let site = Site {
        record: &r,
        region: &g,
        lattice: q,
    };
    read_bricks(&mut out[..n], &View { site, file }, &Raw);
    n
}

// Reads a region of samples as bytes. A refused call changes nothing.
pub fn read_raw(out: &mut [u8], file: &[u8], r: Record, g: Region) -> Result<u64, Refusal>
    ensures answer { result ≡ answer_of r file.now (raw_read g out.old) }
    ensures buffer { raw out.new ∷ [] ≡ buffers_after r file.now (raw_read g out.old) }
{
    raw_verdict(file, r, g, out.len())?;
    Ok(read_region(out, file, r, g) as u64)
}
