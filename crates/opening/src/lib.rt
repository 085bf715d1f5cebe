// Opening a lent cube: checks 1 to 13, and the record.
#![tactic(auto)]

ghost use Rattle.std.specs.Prelude.{◌≡◌, ◌≤◌, length};
ghost use Rattle.record.specs.Record.{header_of};
ghost use Rattle.table.specs.Entries.{Derived};
ghost use Rattle.opening.specs.Opening.{entries_verdict, body_verdict, opened_of};
ghost use Rattle.opening.specs.Cube.{OpensExactly, RecordPasses};

use checks::{check_description, check2, check3, check11};
use endian::u32_at;
use geometry::TEXT_START;
use record::{Record, Refusal, description_at, record_of};
use table::Entries;

// Checks 12 and 13, over all entries of the brick table.
fn check_entries(file: &[u8], r: Record) -> Result<(), Refusal>
    requires { Derived r × (header_of r.description r.text ≤ length file.now) }
    ensures { result ≡ entries_verdict r file.now }
{
    let entries = Entries::of(file, r);
    if let Some(outside) = entries.lowest_out_of_range() {
        return Err(Refusal::Range(outside as u32));
    }
    if let Some(overlapping) = entries.lowest_overlap() {
        return Err(Refusal::Overlap(overlapping as u32));
    }
    Ok(())
}

// Checks 10 to 13.
fn check_body(file: &[u8], r: Record) -> Result<(), Refusal>
    requires { Derived r }
    ensures { result ≡ body_verdict r file.now }
{
    let length = file.len() as u64;
    if length < r.header {
        return Err(Refusal::Headers);
    }
    let end = TEXT_START + r.text as usize;
    if check11(&file[TEXT_START..end]) {
        return Err(Refusal::Text);
    }
    check_entries(file, r)
}

// Opens a cube: its record, or the refusal by the first check that applies.
pub fn open(file: &[u8]) -> Result<Record, Refusal>
    ensures { result ≡ opened_of file.now }
{
    if file.len() < TEXT_START {
        return Err(Refusal::Short);
    }
    if check2(file) {
        return Err(Refusal::Magic);
    }
    let version = u32_at(file, 4);
    if check3(version) {
        return Err(Refusal::Version);
    }
    let d = description_at(file);
    let text = u32_at(file, 342);
    check_description(d, text)?;
    let r = record_of(version, d, text, file.len() as u64);
    check_body(file, r)?;
    Ok(r)
}

// A file is taken exactly when it is a cube by the rules and limits of FORMAT 9.
pub fn opens_exactly()
    ensures { OpensExactly }
{}

// The record of a taken opening passes check 14 with that file.
pub fn record_passes()
    ensures { RecordPasses }
{}
