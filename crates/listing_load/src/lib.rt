// One load with what the listing says of it.
#![tactic(auto)]

ghost use Rattle.scan_cdp.specs.Loads.{loaded};
ghost use Rattle.scan_cdp.specs.Scans.{SameScan, state_of};
ghost use Rattle.listing_load.specs.LoadLines.{Lists};

use input_scanner::Load;
use scan_cdp::{LoadCdp, Scan, Window};
use text_writer::TextWriter;
use validators::RdhCruSanityValidator;

// A load, listed: its reply, and whether it is a packet that is not sound.
#[derive(Clone, Copy, Debug, PartialEq, Eq)]
pub struct Listed {
    pub load: Load,
    pub unsound: bool,
}

// Loads the next packet and writes what the listing says of it: a packet's lines, or the last lines with a refusal, and nothing with a want. The
// validator is left for the next packet. In line: the reply is large, and who lists reads little of it.
#[inline(always)]
pub fn list_cdp(
    scan: &mut Scan,
    validator: &mut RdhCruSanityValidator,
    window: Window,
    w: &mut TextWriter,
) -> Listed
    ensures lists { Lists
        (loaded scan.old.set (state_of scan.old) scan.old.fee_ids.now window.entry.bytes.now window.entry.first.0
        window.entry.last)
        validator.old w.old result scan.new validator.new w.new }
    ensures same { SameScan scan.old scan.new }
{
    let load = input_scanner::load_cdp(scan, window);
    let unsound = match load.answer {
        Ok(found) => match found {
            LoadCdp::Packet(packet) => {
                listing_packet::put_packet(w, validator, packet.own, packet.rdh)
            }
            LoadCdp::Want(_, _) => false,
        },
        Err(why) => {
            listing_lines::put_last(w, scan.progress.counts, why);
            false
        }
    };
    Listed { load, unsound }
}
