// Statements in packed decimal. Each is the function of its name in the crate `robijan`, whose clauses it states again.
ghost use Rattle.std.specs.Prelude.{◌≡◌};
ghost use Rattle.packed.specs.Packed.{pack_call, unpack_call};

use packed::UnpackReturned;

// Writes a statement's amounts as fields of packed decimal.
#[unsafe(no_mangle)]
pub extern "C" fn robijan_pack(amounts: &[i64], output: &mut [u8]) -> u64
    ensures { record { number = result; output = output.new } ≡ pack_call amounts.now output.old }
{
    robijan::packed_calls::robijan_pack(amounts, output)
}

// Reads fields of packed decimal back as amounts.
#[unsafe(no_mangle)]
pub extern "C" fn robijan_unpack(fields: &[u8], output: &mut [i64]) -> UnpackReturned
    ensures { record { returned = result; output = output.new } ≡ unpack_call fields.now output.old }
{
    robijan::packed_calls::robijan_unpack(fields, output)
}
