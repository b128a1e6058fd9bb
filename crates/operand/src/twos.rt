// The pattern of an immediate: 64 bits, two's complement.
ghost use Rattle.std.specs.Prelude.{◌≡◌};
ghost use Rattle.operand.specs.Pattern.{pattern_in};

use crate::Operand;

// The 64-bit pattern of an immediate, and 0 of any other operand.
pub fn pattern_in(value: Operand) -> u64
    ensures { result ≡ pattern_in value }
{
    match value {
        Operand::ImmI64(v) => v.cast_unsigned(),
        Operand::ImmU64(v) => v,
        _ => 0,
    }
}
