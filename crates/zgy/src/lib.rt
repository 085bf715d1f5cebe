// The promises about opened cubes as a whole. The functions of the statements do nothing: the contract is the statement, proved.
// Those of the calls hand them on, and say that what happened is an event as the demands mean it.
#![tactic(auto)]

ghost use Rattle.std.specs.Prelude.{[], ◌∷◌};
ghost use Rattle.cube.specs.Calls.{Call, raw_read, float_read, raw, floats};
ghost use Rattle.zgy.specs.Refusals.{EveryCallRefusesByNumber};
ghost use Rattle.zgy.specs.Cubes.{OpensReadsAndMakes};
ghost use Rattle.zgy.specs.Demands.{OnePlaceOneSample, StaysOpen};
ghost use Rattle.zgy.specs.Ledger.{CallOn};
ghost use Rattle.zgy.specs.Worked.{WorkedNumbers};

use cube::Region;
use reading::read_raw;
use record::{Record, Refusal};
use sampling::read_float;
use writing::write;

// Demand 1: every refusal has a number that its call may give, with a second number for 12, 13 and 19 alone, and leaves the cube
// and all lent buffers.
pub fn every_call_refuses_by_number()
    ensures { EveryCallRefusesByNumber }
{}

// Demand 2: a cube opens exactly when the rules say so, a region read gives the samples that they put there, and a cube that we
// make opens again.
pub fn opens_reads_and_makes()
    ensures { OpensReadsAndMakes }
{}

// Demand 3: different places of stored bricks share no byte, and after any list of calls each sample is the last taken write
// to it, or as it stood at opening, for every read of the list and after it.
pub fn one_place_one_sample()
    ensures { OnePlaceOneSample }
{}

// After every list of reads and writes the cube still opens with the same record, its headers, entries and length unchanged; no call on
// it is refused 12, and a write changes the bytes of its region's samples alone.
pub fn stays_open()
    ensures { StaysOpen }
{}

// The worked numbers 1 to 10 of FORMAT 15.
pub fn worked_numbers()
    ensures { WorkedNumbers }
{}

// A raw read is an event of demand 3.
pub fn raw_read_event(out: &mut [u8], file: &[u8], r: Record, g: Region) -> Result<u64, Refusal>
    ensures { CallOn r file.now (record { call = raw_read g out.old; answer = result; cube = file.now; buffers = raw out.new ∷ [] }) }
{
    read_raw(out, file, r, g)
}

// A float read is one.
pub fn float_read_event(out: &mut [f64], file: &[u8], r: Record, g: Region) -> Result<u64, Refusal>
    ensures { CallOn r file.now (record { call = float_read g out.old; answer = result; cube = file.now; buffers = floats out.new ∷ [] }) }
{
    read_float(out, file, r, g)
}

// A write is one.
pub fn write_event(file: &mut [u8], input: &[u8], r: Record, g: Region) -> Result<u64, Refusal>
    ensures { CallOn r file.old (record { call = Call.write g input.now; answer = result; cube = file.new; buffers = raw input.now ∷ [] }) }
{
    write(file, input, r, g)
}
