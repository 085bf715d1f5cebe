// The listing of a file: what opening says of it, and a line for each brick, as text in a slice that the caller lends.
#![tactic(auto)]

ghost use Rattle.std.specs.Prelude.{◌≤◌, length};
ghost use Rattle.text.specs.Text.{Pours};
ghost use Rattle.text.specs.Writing.{Writes};
ghost use Rattle.record.specs.Record.{header_of};
ghost use Rattle.table.specs.Entries.{Derived};
ghost use Rattle.report.specs.Listing.{numbered, number_line, three_line, refused_line, header_lines, constant_text, kind_text, entry_line};
ghost use Rattle.report.specs.Listing.{cube_lines, listing_of};

use opening::open;
use record::{Coding, Record, Refusal, coding_of};
use table::{Entries, Kind};
use text::Writer;

// The most bytes that a listed file has.
const LONGEST: usize = 65536;

// A word and a number.
fn numbered(out: &mut Writer, word: &[u8], n: u64)
    ensures { Writes out.old (numbered word.now n) out.new }
{
    out.push_bytes(word);
    out.push_decimal(n);
}

// A line of a word and a number.
fn number_line(out: &mut Writer, word: &[u8], n: u64)
    ensures { Writes out.old (number_line word.now n) out.new }
{
    numbered(out, word, n);
    out.push(b'\n');
}

// A line of a word and three numbers.
fn three_line(out: &mut Writer, word: &[u8], ns: [u32; 3])
    ensures { Writes out.old (three_line word.now ns) out.new }
{
    numbered(out, word, u64::from(ns[0]));
    numbered(out, b" ", u64::from(ns[1]));
    number_line(out, b" ", u64::from(ns[2]));
}

// The one line of a refusal.
fn refused_line(out: &mut Writer, refusal: Refusal)
    ensures { Writes out.old (refused_line refusal) out.new }
{
    numbered(out, b"refused ", u64::from(refusal.number()));
    number_line(out, b" ", u64::from(refusal.entry()));
}

// The seven lines of a record.
fn header_lines(out: &mut Writer, r: Record)
    ensures { Writes out.old (header_lines r) out.new }
{
    let d = r.description;
    number_line(out, b"version ", u64::from(r.version));
    number_line(out, b"type ", u64::from(d.datatype));
    three_line(out, b"brick ", d.side);
    three_line(out, b"size ", d.size);
    number_line(out, b"levels ", u64::from(r.levels));
    number_line(out, b"bricks ", u64::from(r.bricks));
    number_line(out, b"header ", r.header);
}

// A constant: the signed storage value; for floats the 32 bits as an unsigned number.
fn constant_text(out: &mut Writer, datatype: u8, value: u32)
    ensures { Writes out.old (constant_text datatype value) out.new }
{
    match coding_of(datatype) {
        Ok(Coding::Scaled { half, .. }) => out.push_signed(value, half),
        Ok(Coding::Float32 { .. }) | Err(_) => out.push_decimal(u64::from(value)),
    }
}

// What an entry names.
fn kind_text(out: &mut Writer, datatype: u8, kind: Kind)
    ensures { Writes out.old (kind_text datatype kind) out.new }
{
    match kind {
        Kind::Missing => out.push_bytes(b" missing"),
        Kind::Constant(value) => {
            out.push_bytes(b" constant ");
            constant_text(out, datatype, value);
        }
        Kind::Stored(offset) => numbered(out, b" stored ", offset),
    }
}

// The line of an entry.
fn entry_line(out: &mut Writer, entry: usize, datatype: u8, kind: Kind)
    ensures { Writes out.old (entry_line datatype entry kind) out.new }
{
    numbered(out, b"entry ", entry as u64);
    kind_text(out, datatype, kind);
    out.push(b'\n');
}

// The listing of a file that opened with this record.
fn cube_lines(out: &mut Writer, file: &[u8], r: Record)
    requires { Derived r × (header_of r.description r.text ≤ length file.now) }
    ensures { Writes out.old (cube_lines file.now r) out.new }
{
    let d = r.description;
    let entries = Entries::of(file, r);
    header_lines(out, r);
    for entry in 0..entries.table.count {
        let kind = entries.kind(entry);
        entry_line(out, entry, d.datatype, kind);
    }
}

// The listing of a file.
fn listing(out: &mut Writer, file: &[u8])
    ensures { Writes out.old (listing_of file.now) out.new }
{
    if LONGEST < file.len() {
        out.push_bytes(b"too long\n");
        return;
    }
    match open(file) {
        Ok(r) => cube_lines(out, file, r),
        Err(refusal) => refused_line(out, refusal),
    }
}

// Lists a file. Answers how many bytes of `out` the listing takes; what does not fit is left out.
pub fn list(out: &mut [u8], file: &[u8]) -> usize
    ensures { Pours out.old 0 (listing_of file.now) out.new result }
{
    let mut lines = Writer::new(out);
    listing(&mut lines, file);
    lines.place()
}
