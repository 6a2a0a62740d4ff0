// The bytes of a block or of an answer: read from anywhere, written anywhere or one after the other.
#![tactic(auto)]

ghost use Rattle.std.specs.Prelude.{◌≤◌};

// The last eight binary digits of x.
pub fn low(x: usize) -> u8 {
    (x % 256) as u8
}

// The byte at a place; 0 behind the end.
pub fn byte(bytes: &[u8], at: usize) -> usize
    ensures { result ≤ 255 }
{
    bytes.get(at).map_or(0, |b| usize::from(*b))
}

// The big-endian number of two bytes. No number here comes near the end of its type, so no sum of places wraps.
pub fn word(bytes: &[u8], at: usize) -> usize
    ensures { result ≤ 65535 }
{
    byte(bytes, at) * 256 + byte(bytes, at.wrapping_add(1))
}

// The big-endian number of four bytes.
pub fn four(bytes: &[u8], at: usize) -> usize {
    word(bytes, at) * 65536 + word(bytes, at.wrapping_add(2))
}

// The bytes of a cell: a letter and a weight, which has one byte in version 1 and two in version 2.
pub fn cell_size(version: usize) -> usize
    ensures { (2 ≤ result) × (result ≤ 3) }
{
    if version == 2 { 3 } else { 2 }
}

// Where cell i of the read at a place starts.
pub fn cell_at(at: usize, i: usize, size: usize) -> usize {
    at.wrapping_add(4).wrapping_add(i.wrapping_mul(size))
}

// The weight of the cell at a place.
pub fn weight_at(bytes: &[u8], cell: usize, size: usize) -> usize
    ensures { result ≤ 65535 }
{
    let at = cell.wrapping_add(1);
    if size == 2 {
        byte(bytes, at)
    } else {
        word(bytes, at)
    }
}

// Each `put_..` writes from `at` on. What has no place there is left out.
pub fn put(bytes: &mut [u8], at: usize, b: u8) {
    if let Some(place) = bytes.get_mut(at) {
        *place = b;
    }
}

pub fn put_word(bytes: &mut [u8], at: usize, x: usize) {
    put(bytes, at, low(x / 256));
    put(bytes, at.wrapping_add(1), low(x));
}

pub fn put_four(bytes: &mut [u8], at: usize, x: usize) {
    put_word(bytes, at, x / 65536);
    put_word(bytes, at.wrapping_add(2), x);
}

// A block or an answer, from the front of a room of 8,192 bytes. What lies behind it in the room stays when it becomes longer.
#[derive(Clone, Copy)]
pub struct Bytes {
    room: [u8; 8192],
    size: usize,
    ghost fits: { size ≤ 8192 },
}

impl Bytes {
    pub fn new() -> Bytes {
        Bytes {
            room: [0; 8192],
            size: 0,
        }
    }

    // A header but for its length field.
    pub fn of_header(version: usize, m: usize, n: usize) -> Bytes {
        let mut bytes = Bytes::new();
        bytes.push(low(version));
        bytes.push_word(0);
        bytes.push_word(0);
        bytes.push_word(m);
        bytes.push_word(n);
        bytes
    }

    pub fn len(&self) -> usize
        ensures { result ≤ 8192 }
    {
        self.size
    }

    pub fn as_slice(&self) -> &[u8] {
        &self.room[..self.size]
    }

    // The whole room.
    pub fn room(&self) -> &[u8] {
        &self.room
    }

    // The byte at a place of the room.
    pub fn byte(&self, at: usize) -> usize
        ensures { result ≤ 255 }
    {
        byte(&self.room, at)
    }

    pub fn word(&self, at: usize) -> usize
        ensures { result ≤ 65535 }
    {
        word(&self.room, at)
    }

    pub fn put(&mut self, at: usize, b: u8) {
        put(&mut self.room, at, b);
    }

    pub fn put_word(&mut self, at: usize, x: usize) {
        put_word(&mut self.room, at, x);
    }

    pub fn put_four(&mut self, at: usize, x: usize) {
        put_four(&mut self.room, at, x);
    }

    pub fn swap(&mut self, a: usize, b: usize) {
        if a < 8192 && b < 8192 {
            self.room.swap(a, b);
        }
    }

    // As many bytes of the room.
    pub fn resize(&mut self, size: usize)
        requires { size ≤ 8192 }
    {
        self.size = size;
    }

    // Each `push_..` writes behind the last byte. What has no place in the room is left out.
    pub fn push(&mut self, b: u8) {
        if self.size < 8192 {
            self.room[self.size] = b;
            self.size += 1;
        }
    }

    pub fn push_word(&mut self, x: usize) {
        self.push(low(x / 256));
        self.push(low(x));
    }

    pub fn push_all(&mut self, bytes: &[u8]) {
        for b in bytes {
            self.push(*b);
        }
    }

    // A cell of a version.
    pub fn push_cell(&mut self, version: usize, letter: u8, weight: usize) {
        self.push(letter);
        if version == 2 {
            self.push_word(weight);
        } else {
            self.push(low(weight));
        }
    }

    // The length field of a read that starts at a place and is written up to its end.
    pub fn put_length(&mut self, at: usize) {
        self.put_word(at, self.size.wrapping_sub(at.wrapping_add(2)));
    }

    // The length field of the header.
    pub fn put_size(&mut self) {
        self.put_four(1, self.size.wrapping_sub(5));
    }
}
