// Bytes, text and decimal numbers, written into a slice that the caller lends.
#![tactic(auto)]

ghost use Rattle.std.specs.Prelude.{◌≡◌, ◌∷◌, [], ◌+◌, ◌-◌, ◌≤◌, min, length, replicate};
ghost use Rattle.floats.specs.Rules.{signed_of};
ghost use Rattle.text.specs.Text.{decimal, signed_decimal};

use endian::copy;

// Where bytes go: a lent slice, and the place after what is written. Each call goes on where the one before it ended, and leaves
// out what does not fit, so whoever makes a writer looks at its place once, at the end. It is no `fmt::Write`: `write!` promises its
// text only where it answers Ok, and nothing promises that it does, while a listing is promised of every file. Nor does it take the kit's `itoa`,
// which needs no heap either: that is one library more for the few lines of `push_decimal`, whose digits the edits `digit` and `base` turn.
#[derive(Drop)]
pub struct Writer<'a> {
    out: &'a mut [u8],
    at: usize,
    ghost inside: { at ≤ length out.now },
}

impl<'a> Writer<'a> {
    ghost use Rattle.text.specs.Writing.{Writes};

    // A writer that begins where the slice does.
    pub fn new(out: &'a mut [u8]) -> Writer<'a>
        ensures same { result.out.ghost_name ≡ out.entry.ghost_name }
        ensures bytes { result.out.now ≡ out.old }
        ensures place { result.at ≡ 0 }
    {
        Writer { out, at: 0 }
    }

    // A writer that begins at a place of the slice, or at its end where the place is past it, for who writes into a slice in turns.
    pub fn starting_at(out: &'a mut [u8], at: usize) -> Writer<'a>
        ensures same { result.out.ghost_name ≡ out.entry.ghost_name }
        ensures bytes { result.out.now ≡ out.old }
        ensures place { result.at ≡ min at (length out.old) }
    {
        let place = at.min(out.len());
        Writer { out, at: place }
    }

    // How many bytes are written.
    pub fn place(&self) -> usize
        ensures { result ≡ self.now.at }
    {
        self.at
    }

    // One byte.
    pub fn push(&mut self, byte: u8)
        ensures { Writes self.old (byte ∷ []) self.new }
    {
        if self.at < self.out.len() {
            self.out[self.at] = byte;
            self.at += 1;
        }
    }

    // The place after n bytes more.
    fn place_after(&self, n: usize) -> usize
        ensures { result ≡ self.now.at + min n (length self.now.out.now - self.now.at) }
    {
        self.at + n.min(self.out.len() - self.at)
    }

    // A text, or any bytes. By the leaf of `endian`: the library's copy_from_slice would have hosts that link the archive bring a memmove.
    pub fn push_bytes(&mut self, bytes: &[u8])
        ensures { Writes self.old bytes.now self.new }
    {
        let end = self.place_after(bytes.len());
        let fitting = &bytes[..end - self.at];
        copy(&mut self.out[self.at..end], fitting);
        self.at = end;
    }

    // The same byte n times.
    pub fn push_repeated(&mut self, byte: u8, n: usize)
        ensures { Writes self.old (replicate n byte) self.new }
    {
        let end = self.place_after(n);
        self.out[self.at..end].fill(byte);
        self.at = end;
    }

    // A number in decimal: the digits before the last, and the last.
    pub fn push_decimal(&mut self, n: u64)
        ensures { Writes self.old (decimal n) self.new }
    {
        let last = b'0' + (n % 10) as u8;
        if n >= 10 {
            self.push_decimal(n / 10);
        }
        self.push(last);
    }

    // The signed number of an integer type in decimal, as an item's bytes have it: n is their unsigned number, and half is 128 for
    // one byte. Of n below twice half, those from half on are below zero. `Item::signed` of crate floats gives the same number, but asks that n is
    // below twice half, and half at most 32768: this promises its text of every n and half.
    pub fn push_signed(&mut self, n: u32, half: u32)
        ensures { Writes self.old (signed_decimal (signed_of half n)) self.new }
    {
        let whole = 2 * u64::from(half);
        let bits = u64::from(n);
        if n < half {
            self.push_decimal(bits);
        } else if bits < whole {
            self.push(b'-');
            self.push_decimal(whole - bits);
        } else {
            self.push_decimal(bits - whole);
        }
    }
}
