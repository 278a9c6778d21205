// A validator as a struct that C has too. Every value of the struct is a validator.
ghost use Rattle.std.specs.Prelude.{◌≡◌};
ghost use Rattle.doors_verdict.specs.Plain.{plain_header_id, plain_validator, validator_of};

use validators::{HeaderId, RdhCruSanityValidator};

// The header ID is the configured one; or else the settled one; or else none.
#[repr(C)]
#[derive(Clone, Copy, Debug, PartialEq, Eq, Default)]
pub struct PlainValidator {
    pub configured: bool,
    pub settled: bool,
    pub id: u8,
    pub its: bool,
}

impl From<PlainValidator> for RdhCruSanityValidator {
    fn from(n: PlainValidator) -> RdhCruSanityValidator
        ensures { result ≡ validator_of n }
    {
        RdhCruSanityValidator {
            header_id: header_id(n.configured, n.settled, n.id),
            its: n.its,
        }
    }
}

fn header_id(configured: bool, settled: bool, id: u8) -> HeaderId
    ensures { result ≡ plain_header_id configured settled id }
{
    if configured {
        return HeaderId::Configured(id);
    }
    if settled {
        return HeaderId::Settled(id);
    }
    HeaderId::NotSettled
}

impl From<RdhCruSanityValidator> for PlainValidator {
    fn from(v: RdhCruSanityValidator) -> PlainValidator
        ensures { result ≡ plain_validator v }
    {
        let none = PlainValidator {
            its: v.its,
            ..PlainValidator::default()
        };
        let header_id = v.header_id;
        match header_id {
            HeaderId::Configured(id) => PlainValidator {
                configured: true,
                id,
                ..none
            },
            HeaderId::NotSettled => none,
            HeaderId::Settled(id) => PlainValidator {
                settled: true,
                id,
                ..none
            },
        }
    }
}
