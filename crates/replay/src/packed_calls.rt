// Statements in packed decimal.
ghost use Rattle.std.specs.Prelude.{◌≡◌};
ghost use Rattle.packed.specs.Packed.{pack_call, unpack_call};
ghost use Rattle.replay.specs.Frames.{PackedFrom, UnpackedFrom};

use crate::{input, output};
use robijan::packed_calls::{robijan_pack, robijan_unpack};

// Words and bytes for more fields than a statement has.
const AMOUNTS: usize = 40;

const BYTES: usize = 512;

// Functions, here and below, and no closures as `with_list` takes: their contracts say what the lent words become.
fn pack_to(amounts: &[i64], lent: &mut [u8])
    ensures { lent.new ≡ (pack_call amounts.now lent.old).output }
{
    let number = robijan_pack(amounts, lent);
    output::name(b"pack");
    output::figure(number);
    output::digest(amounts);
    output::file_digest(lent);
    output::end();
}

fn pack_from(words: &mut [i64], bytes: &mut [u8])
    ensures { PackedFrom words.old bytes.old words.new bytes.new }
{
    let m = input::list(words);
    let n = input::file(bytes);
    pack_to(&words[..m], &mut bytes[..n]);
}

pub fn pack() {
    let mut words = [0i64; AMOUNTS];
    let mut bytes = [0u8; BYTES];
    pack_from(&mut words, &mut bytes);
}

fn unpack_to(fields: &[u8], lent: &mut [i64])
    ensures { lent.new ≡ (unpack_call fields.now lent.old).output }
{
    let answer = robijan_unpack(fields, lent);
    output::name(b"unpack");
    output::figure(answer.number);
    output::figure(answer.position);
    output::figure(answer.count);
    output::file_digest(fields);
    output::words(lent);
    output::end();
}

fn unpack_with(fields: &[u8], words: &mut [i64])
    ensures { UnpackedFrom fields.now words.old words.new }
{
    let n = input::count(words);
    unpack_to(fields, &mut words[..n]);
}

// A part of the bytes is lent on while the words are made: a call each.
fn unpack_lent(fields: &[u8]) {
    let z = input::word();
    let mut words = [z; AMOUNTS];
    unpack_with(fields, &mut words);
}

fn unpack_from(bytes: &mut [u8]) {
    let n = input::file(bytes);
    unpack_lent(&bytes[..n]);
}

pub fn unpack() {
    let mut bytes = [0u8; BYTES];
    unpack_from(&mut bytes);
}
