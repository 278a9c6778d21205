// The verdict.

ghost use Rattle.std.specs.Prelude.{◌≡◌, length};
ghost use Rattle.text.specs.Written.{overwritten};
ghost use Rattle.validators.specs.Verdict.{text_of};
ghost use Rattle.doors_header_structs.specs.Plain.{header_of};
ghost use Rattle.doors_verdict.specs.Plain.{validator_of};
ghost use Rattle.doors_verdict.specs.Replies.{checked};

use doors_header_structs::plain::PlainHeader;
use doors_verdict::PlainChecked;
use doors_verdict::plain::PlainValidator;

// Checks a header, and writes the text that names what is wrong with it.
#[unsafe(no_mangle)]
pub extern "C" fn kesarimbu_check(
    validator: PlainValidator,
    header: PlainHeader,
    text: &mut [u8],
) -> PlainChecked
    ensures answer { result ≡ checked (validator_of validator) (header_of header) (length text.old) }
    ensures left { text.new ≡ overwritten (text_of (validator_of validator) (header_of header)) text.old }
{
    doors_verdict::kesarimbu_check(validator, header, text)
}
