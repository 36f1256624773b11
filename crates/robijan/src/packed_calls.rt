// Statements in packed decimal.
ghost use Rattle.std.specs.Prelude.{◌≡◌};
ghost use Rattle.packed.specs.Packed.{pack_call, unpack_call};

use packed::UnpackReturned;
use packed::pack::pack;
use packed::returned::pack_number;
use packed::unpack::unpack;

// Writes a statement's amounts as fields of packed decimal.
pub fn robijan_pack(amounts: &[i64], output: &mut [u8]) -> u64
    ensures { record { number = result; output = output.new } ≡ pack_call amounts.now output.old }
{
    pack_number(pack(amounts, output))
}

// Reads fields of packed decimal back as amounts.
pub fn robijan_unpack(fields: &[u8], output: &mut [i64]) -> UnpackReturned
    ensures { record { returned = result; output = output.new } ≡ unpack_call fields.now output.old }
{
    unpack(fields, output).into()
}
