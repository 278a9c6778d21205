// What C and Python call about trigger counts, which are an array that a scan keeps and C lends.
#![tactic(auto)]

ghost use Rattle.std.specs.Prelude.{◌≡◌};
ghost use Rattle.text.specs.Written.{overwritten, written};
ghost use Rattle.trigger_texts.specs.Mismatches.{mismatch_text};
ghost use Rattle.trigger_texts.specs.TriggerList.{list_text};
ghost use Rattle.doors_header_structs.specs.Plain.{plain_written};

use doors_header_structs::plain::PlainText;
use trigger_stats::COUNTERS;

// Writes the list of the counts.
pub fn kesarimbu_trigger_list(triggers: &[u32; COUNTERS], out: &mut [u8]) -> PlainText
    ensures answer { result ≡ plain_written (written (list_text triggers.now) out.old) }
    ensures left { out.new ≡ overwritten (list_text triggers.now) out.old }
{
    PlainText::from(trigger_list::display(*triggers, out))
}

// Writes a line for each count that is not the expected one, in the order of the counts.
pub fn kesarimbu_trigger_compare(
    triggers: &[u32; COUNTERS],
    expected: &[u32; COUNTERS],
    out: &mut [u8],
) -> PlainText
    ensures answer { result
        ≡ plain_written (written (mismatch_text triggers.now expected.now) out.old) }
    ensures left { out.new
        ≡ overwritten (mismatch_text triggers.now expected.now) out.old }
{
    PlainText::from(trigger_compare::validate_other(*triggers, *expected, out))
}
