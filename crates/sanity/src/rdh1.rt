// The tests of RDH1: reserved bits and bunch counter.
ghost use Rattle.std.specs.Prelude.{◌≡◌};
ghost use Rattle.sanity.specs.Tests.{bc_test};

const BC_MAX: u16 = 0xdeb;

pub fn bc_fails(bc: u16) -> bool
    ensures { result ≡ (bc_test bc).fails }
{
    bc > BC_MAX
}
