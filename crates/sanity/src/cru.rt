// The tests of what the header has beside its words: data wrapper and data format.
ghost use Rattle.std.specs.Prelude.{◌≡◌};
ghost use Rattle.sanity.specs.Tests.{data_format_test, dw_test};

const DW_MAX: u8 = 1;

const DATA_FORMAT_MAX: u8 = 2;

pub fn dw_fails(dw: u8) -> bool
    ensures { result ≡ (dw_test dw).fails }
{
    dw > DW_MAX
}

pub fn data_format_fails(data_format: u8) -> bool
    ensures { result ≡ (data_format_test data_format).fails }
{
    data_format > DATA_FORMAT_MAX
}
