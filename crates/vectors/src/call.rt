// The calls of a list.
use crate::buffers::Filler;
use crate::fields::Change;
use cube::Region;
use std::fmt;

// Which order a brick is moved to.
#[derive(Clone, Copy)]
pub enum Order {
    Plain,
    Subtiled,
}

// A move of a brick of pseudo-random bytes: how many of them are lent, and how many bytes of a buffer.
#[derive(Clone, Copy)]
pub struct Move {
    pub order: Order,
    pub side: [u32; 3],
    pub width: u32,
    pub length: u32,
    pub room: u32,
}

// A cube to make: how its bricks are filled, a number as it is printed, and the part of the held bytes that is its text.
#[derive(Clone, Copy)]
pub struct Making {
    pub fill: u32,
    pub start: u32,
    pub length: u32,
}

// A call of the library, or a change of what the calls after it are given.
#[derive(Clone, Copy)]
pub enum Call {
    Kind { entry: u32 },
    View { entry: u32, filler: Filler },
    Raw(Region),
    Float(Region),
    Write(Region),
    Position { dimension: u32, index: u32 },
    String { n: u32 },
    Permute(Move),
    Make(Making),
    Open,
    Room(u32),
    Seed(u32),
    Put { at: u32, low: u32, high: u32 },
    Lend(u32),
    Strings,
    Field(Change),
}

// A call is eight numbers: which one it is, and its arguments. Every number is a call.
impl From<[u32; 8]> for Call {
    fn from([which, a, b, c, d, e, f, g]: [u32; 8]) -> Self {
        let region = Region {
            level: a,
            start: [b, c, d],
            count: [e, f, g],
        };
        let moved = |order| Move {
            order,
            side: [a, b, c],
            width: d,
            length: e,
            room: f,
        };
        match which {
            0 => Call::Kind { entry: a },
            1 => Call::View {
                entry: a,
                filler: Filler {
                    value: b,
                    width: c,
                    length: d,
                    spoilt: e,
                },
            },
            2 => Call::Raw(region),
            3 => Call::Float(region),
            4 => Call::Write(region),
            5 => Call::Position {
                dimension: a,
                index: b,
            },
            6 => Call::String { n: a },
            7 => Call::Permute(moved(Order::Plain)),
            8 => Call::Permute(moved(Order::Subtiled)),
            9 => Call::Make(Making {
                fill: a,
                start: b,
                length: c,
            }),
            10 => Call::Open,
            11 => Call::Room(a),
            12 => Call::Seed(a),
            13 => Call::Put {
                at: a,
                low: b,
                high: c,
            },
            14 => Call::Lend(a),
            15 => Call::Strings,
            _ => Call::Field(Change {
                field: a,
                part: b,
                low: c,
                high: d,
            }),
        }
    }
}

impl fmt::Display for Order {
    fn fmt<W: fmt::Write>(&self, f: &mut fmt::Formatter<W>) -> fmt::Result {
        f.write_str(match self {
            Order::Plain => "plain",
            Order::Subtiled => "subtiled",
        })
    }
}

impl fmt::Display for Move {
    fn fmt<W: fmt::Write>(&self, f: &mut fmt::Formatter<W>) -> fmt::Result {
        let [x, y, z] = self.side;
        write!(f, "{} {x} {y} {z}", self.order)?;
        write!(f, " {} {} {}", self.width, self.length, self.room)
    }
}

impl fmt::Display for Making {
    fn fmt<W: fmt::Write>(&self, f: &mut fmt::Formatter<W>) -> fmt::Result {
        write!(f, "{} {} {}", self.fill, self.start, self.length)
    }
}

// The numbers of a region.
#[derive(Clone, Copy)]
struct Numbers(Region);

impl fmt::Display for Numbers {
    fn fmt<W: fmt::Write>(&self, f: &mut fmt::Formatter<W>) -> fmt::Result {
        let [i, j, k] = self.0.start;
        let [l, m, n] = self.0.count;
        write!(f, "{} {i} {j} {k} {l} {m} {n}", self.0.level)
    }
}

// Its name and its arguments.
impl fmt::Display for Call {
    fn fmt<W: fmt::Write>(&self, f: &mut fmt::Formatter<W>) -> fmt::Result {
        match *self {
            Call::Kind { entry } => write!(f, "kind {entry}"),
            Call::View { entry, filler } => write!(f, "view {entry} {filler}"),
            Call::Raw(region) => write!(f, "raw {}", Numbers(region)),
            Call::Float(region) => write!(f, "float {}", Numbers(region)),
            Call::Write(region) => write!(f, "write {}", Numbers(region)),
            Call::Position { dimension, index } => write!(f, "position {dimension} {index}"),
            Call::String { n } => write!(f, "string {n}"),
            Call::Permute(moved) => write!(f, "{moved}"),
            Call::Make(making) => write!(f, "make {making}"),
            Call::Open => f.write_str("open"),
            Call::Room(n) => write!(f, "room {n}"),
            Call::Seed(n) => write!(f, "seed {n}"),
            Call::Put { at, low, high } => write!(f, "put {at} {low} {high}"),
            Call::Lend(n) => write!(f, "lend {n}"),
            Call::Strings => f.write_str("strings"),
            Call::Field(change) => write!(f, "field {change}"),
        }
    }
}
