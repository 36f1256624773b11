// Standard input, field by field, little-endian. What is cut off reads as zeros.
ghost use Rattle.std.specs.Prelude.{◌≡◌, ◌*◌, ◌≤◌, length, drop};
ghost use Rattle.io.specs.Counts.{IsPrefixLen as Counts·bytes};
ghost use Rattle.rulebook.specs.File.{num};
ghost use Rattle.replay.specs.Counts.{Counts};
ghost use Rattle.replay.specs.Fields.{word_in, words_in, ListRead};

// 1,200 words.
const LISTED_BYTES: usize = 9600;

// The byte that starts a frame; none at the end of the input.
pub fn command() -> Option<u8> {
    let mut field = [0u8; 1];
    match io::read_full(0, &mut field) {
        0 => None,
        _ => Some(field[0]),
    }
}

// A field of N bytes.
fn field<const N: usize>() -> [u8; N] {
    let mut field = [0u8; N];
    io::read_full(0, &mut field);
    field
}

// The number that 4 bytes spell. Here and below the bytes are lent: of an array by value the proof doesn't know that each is below 256.
fn number_of(bytes: &[u8; 4]) -> u32
    ensures { result ≡ num 4 bytes.now 0 }
{
    u32::from_le_bytes(*bytes)
}

// The number that 8 bytes spell.
fn long_of(bytes: &[u8; 8]) -> usize
    ensures { result ≡ num 8 bytes.now 0 }
{
    usize::from_le_bytes(*bytes)
}

// The word that 8 bytes spell, in two's complement.
fn word_of(bytes: &[u8; 8]) -> i64
    ensures { result ≡ word_in bytes.now 0 }
{
    i64::from_le_bytes(*bytes)
}

// A number of 4 bytes.
pub fn number() -> u32 {
    number_of(&field())
}

// A number of 8 bytes.
pub fn long() -> usize {
    long_of(&field())
}

// A word: 8 bytes, two's complement.
pub fn word() -> i64 {
    word_of(&field())
}

// A number of 4 bytes, or `most` where it is more. `as`, since there is no From of a u32 for usize.
fn at_most(most: usize) -> usize
    ensures { result ≤ most }
{
    (number() as usize).min(most)
}

// How many words of `space` are meant, from the first on. A count, here and below: without a heap, a list fills the start of lent words.
pub fn count(space: &[i64]) -> usize
    ensures { Counts result space.now }
{
    at_most(space.len())
}

// The words that the bytes spell, one after another, as many as there is room for.
fn words_in(list: &mut [i64], bytes: &[u8])
    requires { 8 * length list.old ≤ length bytes.now }
    ensures { list.new ≡ words_in (length list.old) bytes.now }
{
    let words = bytes.as_chunks::<8>().0;
    for (i, word) in list.iter_mut().enumerate() {
        *word = word_of(&words[i]);
    }
}

// A list of words after its count, by way of `bytes`; it stands at the start of `space`.
fn list_by(space: &mut [i64], bytes: &mut [u8]) -> usize
    ensures { ListRead result space.old space.new bytes.new }
{
    let n = at_most(space.len().min(bytes.len() / 8));
    let end = 8 * n;
    io::read_full(0, &mut bytes[..end]);
    words_in(&mut space[..n], bytes);
    n
}

// A list of words after its count, 1,200 at most; it stands at the start of `space`, the words beyond kept.
pub fn list(space: &mut [i64]) -> usize
    ensures { Counts result space.new × (drop result space.new ≡ drop result space.old) }
{
    let mut bytes = [0u8; LISTED_BYTES];
    list_by(space, &mut bytes)
}

// A list of at most N words after its count, handed to a call.
pub fn with_list<const N: usize, F: FnOnce(&[i64])>(call: F)
    requires few { N ≤ 1200 }
    requires callable { F.IsAlwaysCallable call }
{
    let mut space = [0i64; N];
    let n = list(&mut space);
    call(&space[..n]);
}

// A file after its length; it stands at the start of `space`, the bytes beyond kept.
pub fn file(space: &mut [u8]) -> usize
    ensures { Counts·bytes result space.new × (drop result space.new ≡ drop result space.old) }
{
    let n = at_most(space.len());
    io::read_full(0, &mut space[..n]);
    n
}
