// The float read: the samples of a region as 64-bit floats, into a lent slice, brick by brick as in a raw read.
#![tactic(auto)]

ghost use Rattle.std.specs.Prelude.{[], ◌∷◌, ◌≡◌, ℕ, ◌+◌, ◌*◌, ◌^◌, ◌≤◌, ◌<◌, length};
ghost use Rattle.endian.specs.Loops.{cat};
ghost use Rattle.endian.specs.Bytes.{peek};
ghost use Rattle.table.specs.Entries.{Width};
ghost use Rattle.table.specs.declared.Kind.TheVariants.{Constant, Stored};
ghost use Rattle.record.specs.Answers.{Taken};
ghost use Rattle.cube.specs.Places.{item_bytes, rows_of};
ghost use Rattle.cube.specs.Calls.{float_read, floats, answer_of, buffers_after};
ghost use Rattle.cube.specs.Regions.{size_of, float_rows, float_verdict, over};
ghost use Rattle.runs.specs.Views.{IsCorner, Roomy, Filled};
ghost use Rattle.sampling.specs.Samples.{range_of, one, float_at, floats_of, strip_of};
ghost use Rattle.sampling.specs.Laws.{float_laws};

use cube::{MissingBrick, Region};
use decoding::{decode, decode_one, fill_floats};
use endian::copy;
use floats::widened;
use record::{Record, Refusal};
use regions::float_verdict;
use runs::site::{BrickBox, Corner, Site, View};
use runs::walk::{Items, Reader, read_bricks, read_inlines};
use runs::{index, lattice_of};
use table::Kind;

// The coding range, widened once for a call.
#[derive(Clone, Copy)]
struct Range {
    min: f64,
    max: f64,
}

fn range_of(r: Record) -> Range
    ensures { result ≡ range_of r }
{
    let grid = r.grid;
    Range {
        min: widened(grid.min),
        max: widened(grid.max),
    }
}

// Samples of a missing brick.
fn missing_floats(out: &mut [f64], missing: MissingBrick)
    ensures { out.new ≡ cat (length out.old) (λ _. missing.float ∷ []) }
{
    fill_floats(out, missing.float);
}

impl Items for Range {
    type Element = f64;

    ghost width = { one };

    ghost sample = { float_at };

    ghost items = { floats_of };

    ghost laws = { float_laws };

    ghost fits = { λ range r. range ≡ range_of r };

    fn elements(&self, _v: &View) -> usize {
        1
    }

    fn read_items(&self, out: &mut [f64], v: &View, corner: Corner, n: usize) {
        let q = v.site.lattice;
        let datatype = v.site.record.description.datatype;
        match corner.kind {
            Kind::Missing => missing_floats(out, q.missing),
            Kind::Constant(raw) => {
                let value = decode_one(datatype, raw, self.min, self.max);
                fill_floats(out, value);
            }
            Kind::Stored(offset) => {
                let w = index(q.width);
                let a = offset as usize + corner.item * w;
                let e = a + n * w;
                decode(out, &v.file[a..e], datatype, self.min, self.max);
            }
        }
    }
}

// n items of W bytes, each of them step bytes after the one before, put one after the other. They go by number: after
// `chunks_exact_mut` a proof knows no byte of a chunk.
fn gather<const W: usize>(out: &mut [u8], file: &[u8], from: usize, step: usize, n: usize)
    requires out_len { length out.old ≡ n * W }
    requires by_index { (t : ℕ) → t < n → from + t * step + W ≤ length file.now }
    ensures { out.new ≡ cat n (λ t. peek file.now (from + t * step) W) }
{
    for t in 0..n {
        let a = t * W;
        let e = a + W;
        let p = from + t * step;
        let pe = p + W;
        copy(&mut out[a..e], &file[p..pe]);
    }
}

// The same for a width that a record says. Each has a loop of its own, in which an item is one load and one store.
fn gather_items(out: &mut [u8], file: &[u8], from: usize, step: usize, n: usize, w: usize)
    requires width { Width w × (length out.old ≡ n * w) }
    requires by_index { (t : ℕ) → t < n → from + t * step + w ≤ length file.now }
    ensures { out.new ≡ cat n (λ t. peek file.now (from + t * step) w) }
{
    match w {
        1 => gather::<1>(out, file, from, step, n),
        2 => gather::<2>(out, file, from, step, n),
        _ => gather::<4>(out, file, from, step, n),
    }
}

// As many samples as strip has room for, from the corner's item of its brick on, one of each column. Those of a brick that is not stored are one
// value, whatever the step from column to column. Those of a stored one are gathered first, because the loop that decodes is fast only on items that
// lie one after the other. It is compiled by itself: inlined into the walk, a slice of small bricks took half as many instructions again.
#[inline(never)]
fn read_strip(strip: &mut [f64], v: &View, range: Range, corner: Corner)
    requires range { range ≡ range_of v.now.site.record.now }
    requires few { (v.now.site.lattice.side2 ≤ 64) × (0 < length strip.old) × (length strip.old ≤ 64) }
    requires constant { (n : ℕ) → corner.kind ≡ Constant n → n < 256 ^ item_bytes v.now.site.record.now }
    requires stored { (o : ℕ) → corner.kind ≡ Stored o → (t : ℕ) → t < length strip.old → o + (corner.item + t * v.now.site.lattice.side2 + 1) * v.now.site.lattice.width ≤ length v.now.file.now }
    ensures { strip.new ≡ strip_of v.now.site.record.now v.now.file.now corner.kind corner.item v.now.site.lattice.side2 (length strip.old) }
{
    match corner.kind {
        Kind::Stored(offset) => {
            let q = v.site.lattice;
            let w = index(q.width);
            let n = strip.len();
            let e = n * w;
            let a = offset as usize + corner.item * w;
            let mut block = [0u8; 256];
            gather_items(&mut block[..e], v.file, a, q.side2 * w, n, w);
            let datatype = v.site.record.description.datatype;
            decode(strip, &block[..e], datatype, range.min, range.max);
        }
        Kind::Missing | Kind::Constant(_) => range.read_items(strip, v, corner, strip.len()),
    }
}

// The inlines of a box of a region that is one sample high: a strip of each, which the region has in one piece.
fn read_strips(out: &mut [f64], v: &View, range: Range, corner: Corner, b: BrickBox)
    requires range { range ≡ range_of v.now.site.record.now }
    requires room { Roomy one v.now out.old }
    requires corner { IsCorner v.now corner b × (v.now.site.lattice.count2 ≡ 1) }
    ensures { Filled one float_at v.now b.i b.j b.k out.old out.new }
{
    let q = v.site.lattice;
    let plane = q.side1 * q.side2;
    for t in 0..b.i.n {
        let a = v.sample_no(b.i.at + t, b.j.at, b.k.at);
        let e = a + b.j.n;
        let on = Corner {
            kind: corner.kind,
            item: corner.item + t * plane,
        };
        read_strip(&mut out[a..e], v, range, on);
    }
}

impl Reader for Range {
    // A strip of one sample is better read as a row: it has nothing to gather.
    fn read_box(&self, out: &mut [f64], v: &View, b: BrickBox) {
        let q = v.site.lattice;
        let corner = v.corner(b);
        if q.count2 == 1 && 1 < b.j.n {
            read_strips(out, v, *self, corner, b);
        } else {
            read_inlines(out, v, self, corner, b);
        }
    }
}

// The read itself, once no check applies. Only the front of out that the samples take is lent on.
fn read_taken(out: &mut [f64], file: &[u8], r: Record, g: Region) -> u64
    requires { float_verdict r file.now g (length out.old) ≡ Taken }
    ensures { (result ≡ size_of g) × (out.new ≡ over (float_rows r (rows_of r file.now) g) out.old) }
{
    let q = lattice_of(r, g);
    let n = q.count0 * (q.count1 * q.count2);
    let site = Site {
        record: &r,
        region: &g,
        lattice: q,
    };
    read_bricks(&mut out[..n], &View { site, file }, &range_of(r));
    n as u64
}

// A region's samples by the float rules, vertical fastest and inline slowest, into the front of out. It answers how many.
pub fn read_float(out: &mut [f64], file: &[u8], r: Record, g: Region) -> Result<u64, Refusal>
    ensures answer { result ≡ answer_of r file.now (float_read g out.old) }
    ensures buffer { floats out.new ∷ [] ≡ buffers_after r file.now (float_read g out.old) }
{
    float_verdict(file, r, g, out.len())?;
    Ok(read_taken(out, file, r, g))
}
