// What a validator checks, and the text that names what is wrong with it.
ghost use Rattle.std.specs.Prelude.{ℕ, ◌≡◌, ◌≤◌, Bool, not, List, length};
ghost use Rattle.text_writer.specs.Writer.{extended};
ghost use Rattle.sanity.specs.Tests.{failure_text, sound};
ghost use Rattle.sanity.specs.declared.Criteria.{Criteria as Held};

use crate::LONGEST_TEXT;
use rdh::rdh_cru::RdhCru;
use sanity::Criteria;
use text_writer::{Text, TextWriter};

// A header or a word of it: its header ID, and by what it is held to whether it is sound, and the text that names its failures.
pub trait Checked: Copy {
    ghost id: { Self → ℕ };

    ghost sound: { Self → Held → Bool };

    ghost failures: { Self → Held → List ℕ };

    fn header_id(self) -> u8
        ensures { result ≡ id self };

    // Whether it fails any test. No text is made.
    fn fails(self, criteria: Criteria) -> bool
        ensures { not result ≡ sound self criteria };

    // The length of the longest text: a buffer of this length is never too short.
    fn longest(self, criteria: Criteria) -> usize
        ensures { length (failures self criteria) ≤ result };

    fn put(self, criteria: Criteria, w: &mut TextWriter)
        ensures { w.new ≡ extended w.old (failures self criteria) };
}

impl Checked for RdhCru {
    ghost id = { λ h. h.rdh0.header_id };

    ghost sound = { λ h k. sound k h };

    ghost failures = { λ h k. failure_text k h };

    fn header_id(self) -> u8 {
        self.rdh0.header_id
    }

    #[tactic(auto, unfolding(sanity::specs::Tests::sound))]
    fn fails(self, criteria: Criteria) -> bool {
        sanity_words::fails(criteria, self)
    }

    fn longest(self, _criteria: Criteria) -> usize {
        LONGEST_TEXT
    }

    fn put(self, criteria: Criteria, w: &mut TextWriter) {
        sanity_texts::put_text(w, criteria, self);
    }
}

// The failures of what is checked, as a text.
#[derive(Clone, Copy)]
pub(crate) struct Failures<C> {
    pub criteria: Criteria,
    pub checked: C,
}

impl<C: Checked> Text for Failures<C> {
    ghost text = { λ f. C.failures f.checked f.criteria };

    fn longest(self) -> usize {
        self.checked.longest(self.criteria)
    }

    fn put(self, w: &mut TextWriter) {
        self.checked.put(self.criteria, w);
    }
}
