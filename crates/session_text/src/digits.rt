//! Hexadecimal digits.
ghost use Rattle.std.specs.Prelude.{◌≡◌, ◌*◌, length};
ghost use Rattle.hex.specs.Hex.{encode_lower};

/// Writes the lower-case hexadecimal digits of some bytes.
pub(crate) fn write_digits(out: &mut [u8], given: &[u8])
    requires { length out.old ≡ 2 * length given.now }
    ensures { out.new ≡ encode_lower given.now }
{
    match hex::encode_to_slice(given, out) {
        Ok(()) => {}
        Err(_) => unreachable!(),
    }
}
