// What the outcome of one header answers, and the initial mark.
#![tactic(auto)]

ghost use Rattle.std.specs.Prelude.{◌≡◌};
ghost use Rattle.scan_cdp.specs.Answers.{examined_answer};
ghost use Rattle.scan_cdp.specs.Outcomes.{skip_distance};
ghost use Rattle.scan_cdp.specs.Steps.{answer_in, initial_of};

use outcome::Judged;
use rdh::rdh_cru::RDH_SIZE;
use scan_cdp::{Initial, LoadCdp, Outcome, Packet, Part, Position, Refusal};

// The initial mark, before anything is counted.
#[tactic(auto, unfolding(scan_cdp::specs::Steps::initial_of))]
pub fn initial_collect_stats(judged: Judged, position: Position) -> Option<Initial>
    ensures { result ≡ initial_of judged.set.stats judged.first position judged.rdh }
{
    let rdh = judged.rdh;
    if judged.set.stats & judged.first & (position.0 == 0) {
        return Some(Initial {
            trigger_type: rdh.rdh2.trigger_type,
            data_format: rdh.data_format(),
            system_id: rdh.rdh0.system_id,
        });
    }
    None
}

// The answer for a header at this position, in a load that started at `start`.
pub fn answer(
    judged: Judged,
    payload: Part,
    start: Position,
    position: Position,
) -> Result<Option<LoadCdp>, Refusal>
    ensures { examined_answer result ≡ answer_in judged.outcome judged.rdh payload start position }
{
    match judged.outcome {
        Outcome::FeeIdsFull => Err(Refusal::FeeIdsFull),
        Outcome::BadOffset => Err(Refusal::OffsetToNext(
            skip_distance(judged.rdh.offset_new_packet),
            position,
        )),
        Outcome::MemorySize => Err(Refusal::MemorySize),
        Outcome::Passed => Ok(None),
        Outcome::HandedOut => Ok(Some(LoadCdp::Packet(Packet {
            rdh: judged.rdh,
            payload,
            position: start,
            own: position,
        }))),
    }
}

// The distance to the next header, from behind this one.
fn skip_distance(offset: u16) -> i32
    ensures { result ≡ skip_distance offset }
{
    i32::from(offset) - i32::from(RDH_SIZE)
}
