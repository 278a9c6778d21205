// What a window can show: refusal 6 by the scan's numbers and by the window, where a place is in the window, and a payload as a part of it.
#![tactic(auto)]

ghost use Rattle.std.specs.Prelude.{◌≡◌, min};
ghost use Rattle.scan_cdp.specs.Steps.{numbers_unusable};
ghost use Rattle.scan_cdp.specs.Windows.{bytes_at, outside};

use scan_cdp::{BytePlace, LIMIT, Part, Progress};

// Refusal 6 by the state's numbers and the lengths of links and FEE ids, whatever links are listed.
pub fn numbers_unusable(p: Progress, links: usize, fee_ids: usize) -> bool
    ensures { result ≡ numbers_unusable p links fee_ids }
{
    (p.place.0 > LIMIT)
        | (p.position.0 > LIMIT)
        | (p.links_used > links)
        | (p.fee_ids_used > fee_ids)
        | (p.counts.seen == u32::MAX)
        | (p.counts.filtered == u32::MAX)
        | (p.counts.payload == u32::MAX)
}

// Refusal 6 by the window: it starts after the byte place, or ends too far behind; with no sum that could wrap.
#[tactic(auto, using(std::proofs::lemmas::Bool::Decides::nat_tests), unfolding(scan_cdp::specs::Windows::outside))]
pub fn outside(place: BytePlace, first: BytePlace, length: usize) -> bool
    ensures { result ≡ outside place.0 first.0 length }
{
    let end = first.0.saturating_add(length as u64);
    (place.0 < first.0) | (end > LIMIT)
}

// Where a place that is so far behind the window's first one is in the window, or the window's end.
pub fn start_in(distance: u64, length: usize) -> usize
    ensures { result ≡ min distance length }
{
    distance.min(length as u64) as usize
}

// The bytes of a part of the window, as that of a packet's payload; as many as the window has of them.
#[tactic(auto, using(std::proofs::lemmas::List::take_min, std::proofs::lemmas::List::drop_min), unfolding(scan_cdp::specs::Windows::bytes_at))]
pub fn payload(window: &[u8], part: Part) -> &[u8]
    ensures { result.now ≡ bytes_at window.now part }
{
    let behind = &window[part.start.min(window.len())..];
    &behind[..part.length.min(behind.len())]
}
