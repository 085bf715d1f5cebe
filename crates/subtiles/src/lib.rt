// The version 1 brick order as a permutation: a brick moved to plain order and back, between two lent buffers.
#![tactic(auto)]

ghost use Rattle.std.specs.Prelude.{Bool, true, false, ◌≡◌, ◌*◌, ◌≤◌, ◌<◌, length};
ghost use Rattle.endian.specs.Loops.{cat};
ghost use Rattle.endian.specs.Bytes.{peek};
ghost use Rattle.geometry.specs.Limits.{side_room};
ghost use Rattle.subtiles.specs.Subtiles.{breaks20};
ghost use Rattle.subtiles.specs.Answers.{permute_answer, buffer_after, plain_buffer, subtiled_buffer};
ghost use Rattle.subtiles.specs.Runs.{source_run, moved_in, Movable};
ghost use Rattle.subtiles.specs.Laws.{IsPermutation, ThereAndBack};

use endian::copy;
use geometry::{LEAST_EXPONENT, brick_bytes, power_in};
use record::Refusal;

// Whole subtiles fill a side of 2^3 and more.
const TILE_EXPONENT: u32 = 3;

// Check 20. It answers a bool, as its definition does, and is asked once, where its refusal is named.
fn breaks_20(side: [u32; 3], width: u32) -> bool
    ensures { result ≡ breaks20 side width }
{
    let tiled = power_in(TILE_EXPONENT, side[0]) & power_in(TILE_EXPONENT, side[1]);
    let item = (width == 1) | (width == 2) | (width == 4);
    !(tiled & power_in(LEAST_EXPONENT, side[2]) & item)
}

// A way to move a brick: where run r of the order that it is moved to is taken from. A run is the items of one column (i, j). Both orders keep them
// together, so that a run moves as a whole.
trait Way {
    // The way is to plain order, and not back.
    ghost plain: { Bool };

    // For a brick of n1 columns a row.
    fn source(n1: usize, r: usize) -> usize
        requires { (8 ≤ n1) × (n1 ≤ side_room) × (r < side_room * side_room) }
        ensures { result ≡ source_run plain n1 r };
}

struct ToPlain;

struct ToSubtiled;

impl Way for ToPlain {
    ghost plain = { true };

    // The number in the version 1 order of run r of the plain order: 64 runs a subtile, n1 / 8 subtiles in a row of them.
    fn source(n1: usize, r: usize) -> usize {
        let across = n1 / 8;
        let i = r / n1;
        let j = r % n1;
        let tile = i / 8 * across + j / 8;
        let inside = i % 8 * 8 + j % 8;
        tile * 64 + inside
    }
}

impl Way for ToSubtiled {
    ghost plain = { false };

    // The number in the plain order of run r of the version 1 order.
    fn source(n1: usize, r: usize) -> usize {
        let across = n1 / 8;
        let tile = r / 64;
        let inside = r % 64;
        let i = tile / across * 8 + inside / 8;
        let j = tile % across * 8 + inside % 8;
        i * n1 + j
    }
}

// Each run of `run` bytes of the buffer, in turn, from its place in the other order. They go by number: after
// `chunks_exact_mut` a proof knows no byte of a chunk.
fn move_runs<W: Way>(out: &mut [u8], brick: &[u8], n1: usize, runs: usize, run: usize)
    requires { Movable W.plain n1 runs run (length brick.now) (length out.old) }
    ensures { out.new ≡ cat runs (λ r. peek brick.now (source_run W.plain n1 r * run) run) }
{
    for r in 0..runs {
        let a = r * run;
        let e = a + run;
        let p = W::source(n1, r) * run;
        let q = p + run;
        copy(&mut out[a..e], &brick[p..q]);
    }
}

// The move in either direction: the checks, then the runs, into the front of the buffer.
fn permute<W: Way>(out: &mut [u8], brick: &[u8], side: [u32; 3], width: u32) -> Result<u64, Refusal>
    ensures value { result ≡ permute_answer side width (length brick.now) (length out.old) }
    ensures out_after { out.new ≡ buffer_after (permute_answer side width (length brick.now) (length out.old)) (moved_in W.plain side width brick.now) out.old }
{
    if breaks_20(side, width) {
        return Err(Refusal::Subtiles);
    }
    let n0 = side[0] as usize;
    let n1 = side[1] as usize;
    let n2 = side[2] as usize;
    let item = width as usize;
    let bytes = brick_bytes(
        u64::from(side[0]),
        u64::from(side[1]),
        u64::from(side[2]),
        u64::from(width),
    );
    let n = bytes as usize;
    let room = out.len();
    if (brick.len() < n) | (room < n) {
        return Err(Refusal::Room);
    }
    move_runs::<W>(&mut out[..n], brick, n1, n0 * n1, n2 * item);
    Ok(bytes)
}

// A version 1 brick to plain order.
pub fn to_plain(out: &mut [u8], brick: &[u8], side: [u32; 3], width: u32) -> Result<u64, Refusal>
    ensures value { result ≡ permute_answer side width (length brick.now) (length out.old) }
    ensures out_after { out.new ≡ plain_buffer side width brick.now out.old }
{
    permute::<ToPlain>(out, brick, side, width)
}

// A brick in plain order to the version 1 order.
pub fn to_subtiled(out: &mut [u8], brick: &[u8], side: [u32; 3], width: u32) -> Result<u64, Refusal>
    ensures value { result ≡ permute_answer side width (length brick.now) (length out.old) }
    ensures out_after { out.new ≡ subtiled_buffer side width brick.now out.old }
{
    permute::<ToSubtiled>(out, brick, side, width)
}

// That the version 1 order is a permutation. The function does nothing; its contract is the theorem.
pub fn is_permutation()
    ensures { IsPermutation }
{}

// That the two moves undo each other: a theorem too.
pub fn there_and_back()
    ensures { ThereAndBack }
{}
