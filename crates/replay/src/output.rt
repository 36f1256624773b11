// Standard output: a line a call, its name and figures; and digests of what was lent.
ghost use Rattle.std.specs.Prelude.{◌≡◌, ◌<◌};
ghost use Rattle.replay.specs.Digests as digests;

use itoa::{Buffer, Integer};

// A digest is below this prime, 2^31 − 1.
const MODULUS: u64 = 2147483647;

const FACTOR: u64 = 1000003;

// A line's first part.
pub fn name(text: &[u8]) {
    io::write_all(1, text);
}

// A figure, after a space.
pub fn figure<I: Integer>(n: I) {
    let mut buffer = Buffer::new();
    io::write_all(1, b" ");
    io::write_all(1, buffer.format(n).as_bytes());
}

pub fn end() {
    io::write_all(1, b"\n");
}

// Each word of a list.
pub fn words(list: &[i64]) {
    for z in list {
        figure(*z);
    }
}

// A digest with one number more.
fn more(d: u64, x: u64) -> u64
    requires { (d < 2147483647) × (x < 17179869184) }
    ensures { (result ≡ digests.more d x) × (result < 2147483647) }
{
    (d * FACTOR + x) % MODULUS
}

fn sign(z: i64) -> u64
    ensures { (result ≡ digests.sign z) × (result < 2) }
{
    u64::from(z < 0)
}

// A digest with one word more: the upper half of its magnitude with its sign, then the lower half.
fn more_word(d: u64, z: i64) -> u64
    requires { d < 2147483647 }
    ensures { (result ≡ digests.more_word d z) × (result < 2147483647) }
{
    let size = z.unsigned_abs();
    let upper = 2 * (size / 4294967296) + sign(z);
    more(more(d, upper), size % 4294967296)
}

// Two loops, for words and for bytes: they go in unlike, and of a `fold` the proof lacks that the digest stays below the prime.
fn digest_of(list: &[i64]) -> u64
    ensures { result ≡ digests.digest list.now }
{
    let mut d = 1;
    for z in list {
        d = more_word(d, *z);
    }
    d
}

fn file_digest_of(file: &[u8]) -> u64
    ensures { result ≡ digests.file_digest file.now }
{
    let mut d = 1;
    for b in file {
        d = more(d, u64::from(*b));
    }
    d
}

// The digest of lent words.
pub fn digest(list: &[i64]) {
    figure(digest_of(list));
}

// The digest of a lent file.
pub fn file_digest(file: &[u8]) {
    figure(file_digest_of(file));
}
