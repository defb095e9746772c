// Words in bytes, and a writing's sixteen bytes.
ghost use Rattle.std.specs.Prelude.{◌≡◌, ℕ, ◌+◌, ◌<◌, ◌≤◌};
ghost use Rattle.ticket.specs.Words.{word};
ghost use Rattle.ticket.specs.Writings.{bytes_of, writing_of};

use crate::writing::Writing;

// The word that bytes begin with, high byte first; bytes past the end count as 0.
fn first_word(bytes: &[u8]) -> u32
    ensures { result ≡ word bytes.now 0 }
{
    match bytes {
        [] => 0,
        [a] => u32::from_be_bytes([*a, 0, 0, 0]),
        [a, b] => u32::from_be_bytes([*a, *b, 0, 0]),
        [a, b, c] => u32::from_be_bytes([*a, *b, *c, 0]),
        [a, b, c, d, ..] => u32::from_be_bytes([*a, *b, *c, *d]),
    }
}

// The word at an offset; bytes past the end count as 0.
pub fn word_at(bytes: &[u8], at: usize) -> u32
    ensures { result ≡ word bytes.now at }
{
    // past the end first: by `get(at..)` the empty rest is a case of its own, and a packet takes a tenth longer to read
    if at >= bytes.len() {
        return 0;
    }
    first_word(&bytes[at..])
}

// The four words of sixteen bytes.
fn words_of(bytes: &[u8; 16]) -> Writing
    ensures { result ≡ writing_of bytes.now }
{
    Writing {
        a: word_at(bytes, 0),
        b: word_at(bytes, 4),
        c: word_at(bytes, 8),
        d: word_at(bytes, 12),
    }
}

// The writing of sixteen bytes. Its bytes are these again.
pub fn writing_of(bytes: &[u8; 16]) -> Writing
    ensures is { result ≡ writing_of bytes.now }
    ensures back { bytes_of result ≡ bytes.now }
{
    words_of(bytes)
}

// The sixteen bytes of a writing. They are read as this writing again.
pub fn bytes_of(writing: Writing) -> [u8; 16]
    ensures is { result ≡ bytes_of writing }
    ensures back { writing_of result ≡ writing }
{
    // listed one by one: a walk over four chunks of an array is longer and says no more
    let a = writing.a.to_be_bytes();
    let b = writing.b.to_be_bytes();
    let c = writing.c.to_be_bytes();
    let d = writing.d.to_be_bytes();
    [
        a[0], a[1], a[2], a[3], b[0], b[1], b[2], b[3], c[0], c[1], c[2], c[3], d[0], d[1], d[2],
        d[3],
    ]
}
