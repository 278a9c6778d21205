// The verdict on a header's first word alone: what the Rust's `Rdh0Validator` says.
#![tactic(auto)]

ghost use Rattle.std.specs.Prelude.{not};
ghost use Rattle.sanity.specs.Tests.{any_fails, rdh0_tests, section};
ghost use Rattle.validators_rdh0.specs.Rdh0Verdict.{Checks};

use rdh::rdh0::Rdh0;
use sanity::Criteria;
use text_writer::TextWriter;
use validators::checked::Checked;
use validators::{RdhCruSanityValidator, SanityCheck};

// The length of the longest text: a buffer of this length is never too short.
const LONGEST_TEXT: usize = 174;

// RDH0, checked without the rest of its header.
#[derive(Clone, Copy, Debug, PartialEq, Eq)]
pub struct FirstWord(pub Rdh0);

impl Checked for FirstWord {
    ghost id = { λ w. w.0.header_id };

    ghost sound = { λ w criteria. not (any_fails (rdh0_tests criteria w.0)) };

    ghost failures = { λ w criteria. section "RDH0: " (rdh0_tests criteria w.0) };

    fn header_id(self) -> u8 {
        self.0.header_id
    }

    fn fails(self, criteria: Criteria) -> bool {
        sanity_words::rdh0::fails(criteria, self.0)
    }

    fn longest(self, _criteria: Criteria) -> usize {
        LONGEST_TEXT
    }

    fn put(self, criteria: Criteria, w: &mut TextWriter) {
        sanity_texts::rdh0::put(w, criteria, self.0);
    }
}

// Checks RDH0, and writes the text that names what is wrong with it at the start of `text`. The validator is one of whole headers: what is
// settled goes by the same rules.
pub fn sanity_check(validator: RdhCruSanityValidator, rdh0: Rdh0, text: &mut [u8]) -> SanityCheck
    ensures { Checks validator rdh0 text.old result text.new }
{
    validator.check(FirstWord(rdh0), text)
}
