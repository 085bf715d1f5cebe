// Records with a changed field: a call with one is refused, or makes another cube.
use crate::buffers::from_halves;
use floats::float_of;
use record::Record;
use std::fmt;

// Another value of a field: of an array's field a part, of a longer number both halves. The field stays a number, as it is
// printed: an enum of the fields would only say again what the one match on it says.
#[derive(Clone, Copy)]
pub struct Change {
    pub field: u32,
    pub part: u32,
    pub low: u32,
    pub high: u32,
}

impl Change {
    // The record with the change. Without a clause: which part of the record a field's number changes is the match itself, and an equation would be
    // its 22 arms once more. What is printed of the calls after a change is compared with `stdout`.
    pub fn made_in(self, mut r: Record) -> Record {
        let Change {
            field,
            part,
            low,
            high,
        } = self;
        let long = from_halves(low, high);
        let [byte, ..] = low.to_le_bytes();
        let part = (part as usize).min(2);
        match field {
            0 => r.version = low,
            1 => r.description.side[part] = low,
            2 => r.description.datatype = byte,
            3 => r.description.range[part.min(1)] = low,
            4 => r.description.srctype = byte,
            5 => r.description.orig[part] = low,
            6 => r.description.inc[part] = low,
            7 => r.description.size[part] = low,
            8 => r.description.hdim = byte,
            9 => r.description.hfactor = long,
            10 => r.description.vdim = byte,
            11 => r.description.vfactor = long,
            12 => r.text = low,
            13 => r.grid.orig[part] = float_of(low),
            14 => r.grid.inc[part] = float_of(low),
            15 if part == 0 => r.grid.min = float_of(low),
            15 => r.grid.max = float_of(low),
            16 => r.header = long,
            17 => r.levels = low,
            18 => r.bricks = low,
            19 => r.alphas = low,
            _ => r.length = long,
        }
        r
    }
}

impl fmt::Display for Change {
    fn fmt<W: fmt::Write>(&self, f: &mut fmt::Formatter<W>) -> fmt::Result {
        write!(f, "{} {} {} {}", self.field, self.part, self.low, self.high)
    }
}
