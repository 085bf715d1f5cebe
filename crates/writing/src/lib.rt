// Writes: lent bytes into the stored bricks of a region, in a raw read's order: vertical fastest and inline slowest.
// All checks are done before the first byte is stored. The work grows with the region alone.
#![tactic(auto)]

ghost use Rattle.std.specs.Prelude.{◌≡◌, ◌+◌, ◌*◌, ◌≤◌, ◌<◌, length};
ghost use Rattle.endian.specs.Bytes.{put};
ghost use Rattle.record.specs.Answers.{Taken};
ghost use Rattle.cube.specs.Places.{item_bytes, Inside, kind_in, brick_of};
ghost use Rattle.cube.specs.Calls.{Call, answer_of, cube_after};
ghost use Rattle.table.specs.Entries.{offset_in};
ghost use Rattle.cube.specs.Regions.{run_of, place, size_of, written, write_verdict};
ghost use Rattle.writing.specs.Writes.{run_bytes, plane_bytes, run_to, plane_to, IsWritable};

use cube::Region;
use endian::copy;
use record::{Record, Refusal};
use regions::write_verdict;
use runs::parts::Parts;
use runs::site::Site;
use runs::{index, lattice_of};

// Where the brick that holds a sample of the region is stored. The 0 is that of `offset_in`, which sample places are stated with: check 19
// has passed where this is called, so it stands for no brick that is written to.
fn offset_on(file: &[u8], site: &Site, i: usize, j: usize, k: usize) -> u64
    requires inside { Inside site.now.record.now (place site.now.region.now i j k) }
    requires same_length { site.now.record.now.length ≡ length file.now }
    ensures { result ≡ offset_in (kind_in site.now.record.now file.now (brick_of site.now.record.now (place site.now.region.now i j k))) }
{
    site.kind(file, i, j, k).offset().unwrap_or(0)
}

// These bytes into a brick at this offset, from this item on.
fn write_items(file: &mut [u8], input: &[u8], offset: u64, item: usize, w: usize)
    requires { offset + item * w + length input.now ≤ length file.old }
    ensures { file.new ≡ put file.old (offset + item * w) input.now }
{
    let p = offset as usize + item * w;
    let e = p + input.len();
    copy(&mut file[p..e], input);
}

// One vertical run, cut at the bricks' faces.
fn write_run(file: &mut [u8], run: &[u8], site: &Site, i: usize, j: usize)
    requires writable { IsWritable site.now file.old }
    requires inside { (i < run_of site.now.region.now 0) × (j < run_of site.now.region.now 1) }
    requires bytes { length run.now ≡ run_bytes site.now.record.now site.now.region.now }
    ensures { file.new ≡ run_to site.now.record.now site.now.region.now i j run.now file.old }
{
    let q = site.lattice;
    let w = index(q.width);
    for down in Parts::new(q.start2, q.side2, q.count2) {
        let offset = offset_on(file, site, i, j, down.at);
        let item = site.item(i, j, down.at);
        let a = down.at * w;
        let e = a + down.n * w;
        write_items(file, &run[a..e], offset, item, w);
    }
}

// The runs of one inline, which are equal parts of its bytes. That a write may store stands at each loop, since it speaks of the file as the loop finds it.
fn write_plane(file: &mut [u8], plane: &[u8], site: &Site, i: usize)
    requires writable { IsWritable site.now file.old }
    requires inside { i < run_of site.now.region.now 0 }
    requires bytes { length plane.now ≡ plane_bytes site.now.record.now site.now.region.now }
    ensures { file.new ≡ plane_to site.now.record.now site.now.region.now i plane.now file.old }
{
    let size = plane.len() / site.lattice.count1;
    for (j, run) in plane.chunks_exact(size).enumerate() {
        write_run(file, run, site, i, j);
    }
}

// The inlines of a region, equal parts of its bytes too.
fn write_planes(file: &mut [u8], input: &[u8], site: &Site)
    requires writable { IsWritable site.now file.old }
    requires bytes { length input.now ≡ size_of site.now.region.now * item_bytes site.now.record.now }
    ensures { file.new ≡ written site.now.record.now site.now.region.now input.now file.old }
{
    let size = input.len() / site.lattice.count0;
    for (i, plane) in input.chunks_exact(size).enumerate() {
        write_plane(file, plane, site, i);
    }
}

// A region that its checks took. It answers how many bytes were stored.
fn write_region(file: &mut [u8], input: &[u8], r: Record, g: Region) -> usize
    requires { write_verdict r file.old g (length input.now) ≡ Taken }
    ensures count { result ≡ size_of g * item_bytes r }
    ensures cube { file.new ≡ written r g input.now file.old }
{
    let q = lattice_of(r, g);
    let n = q.count0 * (q.count1 * (q.count2 * index(q.width)));
    let site = Site {
        record: &r,
        region: &g,
        lattice: q,
    };
    write_planes(file, &input[..n], &site);
    n
}

// Writes a region of samples from lent bytes. A refused call changes nothing.
pub fn write(file: &mut [u8], input: &[u8], r: Record, g: Region) -> Result<u64, Refusal>
    ensures answer { result ≡ answer_of r file.old (Call.write g input.now) }
    ensures cube { file.new ≡ cube_after r file.old (Call.write g input.now) }
{
    write_verdict(file, r, g, input.len())?;
    Ok(write_region(file, input, r, g) as u64)
}
