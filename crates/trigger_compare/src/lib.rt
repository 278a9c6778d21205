// The comparison of two trigger statistics.
#![tactic(auto)]

ghost use Rattle.std.specs.Prelude.{◌≡◌, map};
ghost use Rattle.text.specs.Ascii.{ascii};
ghost use Rattle.text.specs.Written.{Writes};
ghost use Rattle.text_writer.specs.Writer.{extended};
ghost use Rattle.trigger_stats.specs.Counters.{counters};
ghost use Rattle.trigger_texts.specs.FieldMismatches.{mismatch_if_any};
ghost use Rattle.trigger_texts.specs.Mismatches.{mismatch_text, name};

use text::TooShort;
use text_writer::{Text, TextWriter, write_text};
use trigger_stats::COUNTERS;

// The length of the longest comparison, with ten digits in every number.
const LONGEST_COMPARISON: usize = 1058;

// The fields' names, in their order.
const NAMES: [&str; COUNTERS] = [
    "orbit", "hb", "hbr", "hc", "pht", "pp", "cal", "sot", "eot", "soc", "eoc", "tf", "fe_rst",
    "rt", "rs", "lhc_gap1", "lhc_gap2", "tpc_sync", "tpc_rst", "tof",
];

// The counts and those expected, as the text that tells their differences.
#[derive(Clone, Copy)]
struct Comparison {
    counts: [u32; COUNTERS],
    expected: [u32; COUNTERS],
}

impl Text for Comparison {
    ghost text = { λ c. mismatch_text c.counts c.expected };

    fn longest(self) -> usize {
        LONGEST_COMPARISON
    }

    fn put(self, w: &mut TextWriter) {
        put_mismatches(w, &NAMES, self.counts, self.expected);
    }
}

// Writes a line for each count that differs from the expected one, in the order of the fields. Equal statistics give the empty text, which fits
// any buffer.
pub fn validate_other(
    counts: [u32; COUNTERS],
    expected: [u32; COUNTERS],
    out: &mut [u8],
) -> Result<usize, TooShort>
    ensures { Writes (mismatch_text counts expected) out.old result out.new }
{
    write_text(Comparison { counts, expected }, out)
}

// The lines of a comparison, in the order of the fields.
fn put_mismatches(
    w: &mut TextWriter,
    names: &[&str; COUNTERS],
    counts: [u32; COUNTERS],
    expected: [u32; COUNTERS],
)
    requires { map (λ n. n.now) names.now ≡ map (λ k. ascii (name k)) counters }
    ensures { w.new ≡ extended w.old (mismatch_text counts expected) }
{
    w.write_bytes(b"");
    for field in 0..COUNTERS {
        put_mismatch(w, names[field], expected[field], counts[field]);
    }
}

// The line of a field in a comparison, or nothing where the two counts are equal.
fn put_mismatch(w: &mut TextWriter, field: &str, expected: u32, got: u32)
    ensures { w.new ≡ extended w.old (mismatch_if_any field.now expected got) }
{
    if got == expected {
        return w.write_bytes(b"");
    }
    w.write_bytes(field.as_bytes());
    w.write_bytes(b" mismatch! expected: ");
    w.write_decimal(expected as u64);
    w.write_bytes(b", got: ");
    w.write_decimal(got as u64);
    w.write_byte(b'\n');
}
