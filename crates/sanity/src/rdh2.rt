// The tests of RDH2: reserved bits, stop bit and trigger type.
ghost use Rattle.std.specs.Prelude.{◌≡◌};
ghost use Rattle.sanity.specs.Tests.{stop_bit_test, trigger_type_test};

const STOP_BIT_MAX: u8 = 1;

pub fn stop_bit_fails(stop_bit: u8) -> bool
    ensures { result ≡ (stop_bit_test stop_bit).fails }
{
    stop_bit > STOP_BIT_MAX
}

// No trigger at all, or one of the spare bits 15 to 26.
pub fn trigger_type_fails(trigger_type: u32) -> bool
    ensures { result ≡ (trigger_type_test trigger_type).fails }
{
    (trigger_type == 0) | (trigger_type / 0x8000 % 0x1000 != 0)
}
