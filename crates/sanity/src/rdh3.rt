// The tests of RDH3: reserved bits and detector field.
ghost use Rattle.std.specs.Prelude.{◌≡◌};
ghost use Rattle.sanity.specs.Tests.{detector_field_test};

// The bits 12 to 23 are reserved. The detector's own, below and above these, are free.
pub fn detector_field_fails(detector_field: u32) -> bool
    ensures { result ≡ (detector_field_test detector_field).fails }
{
    detector_field / 0x1000 % 0x1000 != 0
}
