// The verdict: whether a header is sound, in the Rust's words.
#![tactic(auto)]

ghost use Rattle.std.specs.Prelude.{◌≡◌};
ghost use Rattle.text.specs.Written.{Writes};
ghost use Rattle.validators.specs.Lent.{ChecksLent};
ghost use Rattle.validators.specs.Verdict.{Checks, ChecksBy, expected_id, held_to, holding, settled_id};

use checked::{Checked, Failures};
use rdh::rdh_cru::RdhCru;
use sanity::Criteria;
use text::TooShort;
use text_writer::write_text;

pub mod checked;

// The header ID that headers are held to: the configured version; or none yet; or that of the first header checked.
#[derive(Clone, Copy, Debug, PartialEq, Eq)]
pub enum HeaderId {
    Configured(u8),
    NotSettled,
    Settled(u8),
}

impl HeaderId {
    // The header ID that a header with this ID is held to.
    pub fn expected(self, id: u8) -> u8
        ensures { result ≡ expected_id self id }
    {
        match self {
            HeaderId::Configured(n) => n,
            HeaderId::NotSettled => id,
            HeaderId::Settled(n) => n,
        }
    }

    // What is settled once a header with this ID has been checked.
    pub fn settled(self, id: u8) -> HeaderId
        ensures { result ≡ settled_id self id }
    {
        match self {
            HeaderId::Configured(n) => HeaderId::Configured(n),
            HeaderId::NotSettled => HeaderId::Settled(id),
            HeaderId::Settled(n) => HeaderId::Settled(n),
        }
    }
}

// A validator: its settings (a configured version or none, and whether the system id is tested as that of the ITS), and what it has
// settled. A new one is `Configured` or `NotSettled`.
#[derive(Clone, Copy, Debug, PartialEq, Eq)]
pub struct RdhCruSanityValidator {
    pub header_id: HeaderId,
    pub its: bool,
}

// Sound; or not sound, with the length of the text that was written.
#[derive(Clone, Copy, Debug, PartialEq, Eq)]
pub enum Verdict {
    Sound,
    NotSound(usize),
}

// A check's reply: the verdict, or that the buffer is too short for the text; and the validator for the next header.
#[derive(Clone, Copy, Debug, PartialEq, Eq)]
pub struct SanityCheck {
    pub verdict: Result<Verdict, TooShort>,
    pub validator: RdhCruSanityValidator,
}

// The length of the longest text of a header: a buffer of this length is never too short.
const LONGEST_TEXT: usize = 406;

impl RdhCruSanityValidator {
    // Checks a header, and writes the text that names what is wrong with it at the start of `text`. The first header checked settles the
    // header ID, sound or not; a refused check settles nothing.
    pub fn sanity_check(self, rdh: RdhCru, text: &mut [u8]) -> SanityCheck
        ensures { Checks self rdh text.old result text.new }
    {
        self.check(rdh, text)
    }

    // The same by a validator that is lent, as the Rust's `sanity_check(&mut self, ..)`: it is updated where it stands.
    pub fn sanity_check_lent(&mut self, rdh: RdhCru, text: &mut [u8]) -> Result<Verdict, TooShort>
        ensures { ChecksLent self.old rdh text.old result self.new text.new }
    {
        let check = self.sanity_check(rdh, text);
        *self = check.validator;
        check.verdict
    }

    // The check of anything that a validator checks, a header or a word of it.
    pub fn check<C: Checked>(self, checked: C, text: &mut [u8]) -> SanityCheck
        ensures { ChecksBy self (C.id checked) (C.sound checked) (C.failures checked) text.old result text.new }
    {
        let id = checked.header_id();
        let criteria = self.criteria(id);
        let settled = self.settled_by(id);
        if !checked.fails(criteria) {
            return SanityCheck {
                verdict: Ok(Verdict::Sound),
                validator: settled,
            };
        }
        match write_failures(Failures { criteria, checked }, text) {
            Ok(length) => SanityCheck {
                verdict: Ok(Verdict::NotSound(length)),
                validator: settled, // the ID is settled though the header fails
            },
            Err(too_short) => SanityCheck {
                verdict: Err(too_short),
                validator: self,
            },
        }
    }

    // What something with this header ID is held to.
    fn criteria(self, id: u8) -> Criteria
        ensures { result ≡ held_to self id }
    {
        Criteria {
            header_id: self.header_id.expected(id),
            its: self.its,
        }
    }

    // The validator once something with this header ID has been checked.
    fn settled_by(self, id: u8) -> RdhCruSanityValidator
        ensures { result ≡ holding self (settled_id self.header_id id) }
    {
        RdhCruSanityValidator {
            header_id: self.header_id.settled(id),
            ..self
        }
    }
}

// Writes what fails. That is rare, and said to be, so that what a sound header goes through stands in a row.
#[cold]
#[inline(never)]
fn write_failures<C: Checked>(failures: Failures<C>, text: &mut [u8]) -> Result<usize, TooShort>
    ensures { Writes (C.failures failures.checked failures.criteria) text.old result text.new }
{
    write_whole(failures, text)
}

// The text itself, in a function of its own: in one that is said to be rare it would be made small, and not fast.
#[inline(never)]
fn write_whole<C: Checked>(failures: Failures<C>, text: &mut [u8]) -> Result<usize, TooShort>
    ensures { Writes (C.failures failures.checked failures.criteria) text.old result text.new }
{
    write_text(failures, text)
}
