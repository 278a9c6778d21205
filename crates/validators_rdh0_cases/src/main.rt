// Tries the verdict on RDH0. Standard input has words of eight bytes, at most 8,192 of them, and each is answered by a line: `sound`, or
// the text that names what is wrong. They are checked one after the other by a validator that has no version and no ITS, so that the
// first settles the header ID.
#![tactic(auto)]

use rdh::rdh0::{FeeId, Rdh0};
use std::io;
use std::io::{ErrorKind, Read};
use text::TooShort;
use validators::{HeaderId, RdhCruSanityValidator, Verdict};

const MOST_WORDS: u32 = 8192;

fn rdh0_of(word: [u8; 8]) -> Rdh0 {
    Rdh0 {
        header_id: word[0],
        header_size: word[1],
        fee_id: FeeId(u16::from_le_bytes([word[2], word[3]])),
        priority_bit: word[4],
        system_id: word[5],
        reserved0: u16::from_le_bytes([word[6], word[7]]),
    }
}

fn show(rt: &impl Print, verdict: Result<Verdict, TooShort>, text: &[u8]) -> io::Result<()> {
    match verdict {
        Ok(Verdict::Sound) => cases_show::text(rt, b"sound")?,
        Ok(Verdict::NotSound(length)) => {
            if length <= text.len() {
                cases_show::text(rt, &text[..length])?;
            }
        }
        Err(too_short) => cases_show::number(rt, too_short.needed as u64)?,
    }
    cases_show::end(rt)
}

fn answer(
    rt: &impl Print,
    validator: RdhCruSanityValidator,
    rdh0: Rdh0,
) -> io::Result<RdhCruSanityValidator> {
    let mut text = [0u8; 256];
    let check = validators_rdh0::sanity_check(validator, rdh0, &mut text);
    show(rt, check.verdict, &text)?;
    Ok(check.validator)
}

fn main(rt: HostRuntime) -> io::Result<()> {
    let mut validator = RdhCruSanityValidator {
        header_id: HeaderId::NotSettled,
        its: false,
    };
    let mut input = rt.stdin();
    for _ in 0..MOST_WORDS {
        let mut word = [0u8; 8];
        match input.read_exact(&mut word) {
            Ok(()) => {}
            Err(e) if e.kind() == ErrorKind::UnexpectedEof => return Ok(()),
            Err(e) => return Err(e),
        }
        validator = answer(&rt, validator, rdh0_of(word))?;
    }
    Ok(())
}
