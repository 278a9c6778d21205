// The text of trigger statistics: the list of the counts.
#![tactic(auto)]

ghost use Rattle.std.specs.Prelude.{◌≡◌, map};
ghost use Rattle.text.specs.Ascii.{ascii};
ghost use Rattle.text.specs.Written.{Writes};
ghost use Rattle.text_writer.specs.Writer.{extended};
ghost use Rattle.trigger_stats.specs.Counters.{counters};
ghost use Rattle.trigger_texts.specs.TriggerList.{label, line_of, list_text};

use text::TooShort;
use text_writer::{Text, TextWriter, write_text};
use trigger_stats::COUNTERS;

// The length of the longest list: a buffer of this length is never too short.
const LONGEST_LIST: usize = 480;

// What stands in front of each count, in the order of the fields.
const LABELS: [&str; COUNTERS] = [
    "  Orbit:    ",
    "  HB:       ",
    "  HBr:      ",
    "  HC:       ",
    "  PhT:      ",
    "  PP:       ",
    "  CAL:      ",
    "  SOT:      ",
    "  EOT:      ",
    "  SOC:      ",
    "  EOC:      ",
    "  TF:       ",
    "  FE_rst:   ",
    "  RT:       ",
    "  RS:       ",
    "  LHC_gap1: ",
    "  LHC_gap2: ",
    "  TPC_sync: ",
    "  TPC_rst:  ",
    "  TOF:      ",
];

// The counts, as the text that lists them.
#[derive(Clone, Copy)]
struct TriggerList {
    counts: [u32; COUNTERS],
}

impl Text for TriggerList {
    ghost text = { λ list. list_text list.counts };

    fn longest(self) -> usize {
        LONGEST_LIST
    }

    fn put(self, w: &mut TextWriter) {
        put_list(w, &LABELS, self.counts);
    }
}

// Writes the list of all counts at the start of `out`.
pub fn display(counts: [u32; COUNTERS], out: &mut [u8]) -> Result<usize, TooShort>
    ensures { Writes (list_text counts) out.old result out.new }
{
    write_text(TriggerList { counts }, out)
}

// The title and a line for each counter.
fn put_list(w: &mut TextWriter, labels: &[&str; COUNTERS], counts: [u32; COUNTERS])
    requires { map (λ l. l.now) labels.now ≡ map (λ k. ascii (label k)) counters }
    ensures { w.new ≡ extended w.old (list_text counts) }
{
    w.write_bytes(b"Trigger statistics:\n");
    for k in 0..COUNTERS {
        put_line(w, labels[k], counts[k]);
    }
}

// The line of a counter in the list.
fn put_line(w: &mut TextWriter, label: &str, n: u32)
    ensures { w.new ≡ extended w.old (line_of label.now n) }
{
    w.write_bytes(label.as_bytes());
    w.write_decimal_right(n as u64, 6);
    w.write_byte(b'\n');
}
