// Little-endian numbers at a place of a lent slice, and the leaf that copies one slice into another.
#![tactic(auto)]

ghost use Rattle.std.specs.Prelude.{◌≡◌, ◌+◌, ◌*◌, ◌<◌, ◌≤◌, length, get_or};
ghost use Rattle.endian.specs.Bytes.{le, peek, put};

// A byte at a place, and a number of 2, 4 or 8 bytes. Each stays a function of its own: no trait of std has `from_le_bytes` of every width. With
// `FromBytes` of num_traits `le` would have to be carried through that trait's own words, for one line at each width, and byteorder has a function for
// each width as well.
pub fn u8_at(s: &[u8], at: usize) -> u8
    requires { at < length s.now }
    ensures { result ≡ get_or s.now at 0 }
{
    s[at]
}

#[tactic(auto, unfolding(crate::specs::Bytes::le))]
pub fn u16_at(s: &[u8], at: usize) -> u16
    requires { at + 2 ≤ length s.now }
    ensures { result ≡ le 2 s.now at }
{
    u16::from_le_bytes([s[at], s[at + 1]])
}

#[tactic(auto, unfolding(crate::specs::Bytes::le))]
pub fn u32_at(s: &[u8], at: usize) -> u32
    requires { at + 4 ≤ length s.now }
    ensures { result ≡ le 4 s.now at }
{
    u32::from_le_bytes([s[at], s[at + 1], s[at + 2], s[at + 3]])
}

#[tactic(auto, unfolding(crate::specs::Bytes::le))]
pub fn u64_at(s: &[u8], at: usize) -> u64
    requires { at + 8 ≤ length s.now }
    ensures { result ≡ le 8 s.now at }
{
    u64::from_le_bytes([
        s[at],
        s[at + 1],
        s[at + 2],
        s[at + 3],
        s[at + 4],
        s[at + 5],
        s[at + 6],
        s[at + 7],
    ])
}

// Byte by byte: runs below 4 bytes, and the load and the store of a piece. That both slices have one length stands at each function here, as it
// does at the library's copy_from_slice: they are two slices of the caller's.
// The places are counted by `enumerate`. With a `zip` of both slices the proof doesn't close: what `out` holds is known after a loop over its `iter_mut()`
// or the `enumerate()` of it, and after one over another adapter only its length is.
fn copy_bytes(out: &mut [u8], src: &[u8])
    requires { length src.now ≡ length out.old }
    ensures { out.new ≡ src.now }
{
    for (t, to) in out.iter_mut().enumerate() {
        *to = src[t];
    }
}

// size bytes at one place. All are read before any is written, so that no code has to test whether the slices overlap: at a
// literal size it is one load and one store.
fn copy_piece(out: &mut [u8], src: &[u8], at: usize, size: usize)
    requires { (size ≤ 16) × (at + size ≤ length src.now) × (at + size ≤ length out.old) }
    ensures { out.new ≡ put out.old at (peek src.now at size) }
{
    let e = at + size;
    let mut piece = [0u8; 16];
    copy_bytes(&mut piece[..size], &src[at..e]);
    copy_bytes(&mut out[at..e], &piece[..size]);
}

// A block: a piece, or two of 16 bytes. One piece of 32 would be two loads before two stores, which is slower on long runs.
fn copy_block(out: &mut [u8], src: &[u8], at: usize, size: usize)
    requires { (size ≤ 32) × (at + size ≤ length src.now) × (at + size ≤ length out.old) }
    ensures { out.new ≡ put out.old at (peek src.now at size) }
{
    if size <= 16 {
        copy_piece(out, src, at, size);
    } else {
        copy_piece(out, src, at, 16);
        copy_piece(out, src, at + 16, size - 16);
    }
}

// Blocks from the front, and a last one that ends where the slices end. Where size does not divide the length it overlaps the
// block before it and writes the same bytes there again: no bytes are left over for a slower loop.
fn copy_blocks(out: &mut [u8], src: &[u8], size: usize)
    requires { (0 < size) × (size ≤ 32) × (size ≤ length out.old) × (length src.now ≡ length out.old) }
    ensures { out.new ≡ src.now }
{
    let last = out.len() - size;
    for t in (0..last).step_by(size) {
        copy_block(out, src, t, size);
    }
    copy_block(out, src, last, size);
}

// The copying leaf. Each size is a literal, so that the loop is compiled for it: a run below 64 bytes is two blocks at most. The library's
// copy_from_slice calls memcpy: with it raw reads of sections took 17 to 20 % longer (docs/PERFORMANCE.md, after the pass over the design), and crossline
// sections of float32, at 0.94 of plain Rust, would miss the goal of 1.1. With the size as a const parameter, and a piece as an array of it, such sections
// took up to a third longer.
pub fn copy(out: &mut [u8], src: &[u8])
    requires { length src.now ≡ length out.old }
    ensures { out.new ≡ src.now }
{
    let n = out.len();
    if 32 <= n {
        copy_blocks(out, src, 32);
    } else if 16 <= n {
        copy_blocks(out, src, 16);
    } else if 8 <= n {
        copy_blocks(out, src, 8);
    } else if 4 <= n {
        copy_blocks(out, src, 4);
    } else {
        copy_bytes(out, src);
    }
}
