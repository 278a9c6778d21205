// What C and Python call about lost packets: the check of a header on its link, over five arrays that C lends for the 256 links.
#![tactic(auto)]

ghost use Rattle.std.specs.Prelude.{◌≡◌};
ghost use Rattle.link_continuity.specs.Arrays.{arrays, arrays_after, links_of};
ghost use Rattle.link_continuity.specs.Links.{yields_on};
ghost use Rattle.doors_header_structs.specs.Plain.{header_of};
ghost use Rattle.doors_links.specs.Plain.{plain_link_check};

use doors_header_structs::plain::PlainHeader;
use link_continuity::{LINKS, LinkCheck, check_link};
use rdh::rdh_cru::RdhCru;

// Which fields of the header are not as they must be, and how far its packet counter is ahead of the expected one.
#[repr(C)]
#[derive(Clone, Copy, Debug, PartialEq, Eq)]
pub struct PlainLinkCheck {
    pub packet_counter: bool,
    pub pages_counter: bool,
    pub orbit: bool,
    pub distance: u8,
}

// What a header yields on its link, of which it becomes the last one.
pub fn kesarimbu_check_link(
    header: PlainHeader,
    seen: &mut [u8; LINKS],
    packet_counters: &mut [u8; LINKS],
    pages_counters: &mut [u16; LINKS],
    orbits: &mut [u32; LINKS],
    stop_bits: &mut [u8; LINKS],
) -> PlainLinkCheck
    ensures yields { result
        ≡ plain_link_check
        (yields_on
        (links_of
        (arrays seen.old packet_counters.old pages_counters.old
        orbits.old stop_bits.old))
        (header_of header)) }
    ensures keeps { arrays seen.new packet_counters.new pages_counters.new
        orbits.new stop_bits.new
        ≡ arrays_after
        (arrays seen.old packet_counters.old pages_counters.old
        orbits.old stop_bits.old)
        (header_of header) }
{
    let check = check_link(
        RdhCru::from(header),
        seen,
        packet_counters,
        pages_counters,
        orbits,
        stop_bits,
    );
    PlainLinkCheck::from(check)
}

impl From<LinkCheck> for PlainLinkCheck {
    fn from(check: LinkCheck) -> PlainLinkCheck
        ensures { result ≡ plain_link_check check }
    {
        PlainLinkCheck {
            packet_counter: check.packet_counter,
            pages_counter: check.pages_counter,
            orbit: check.orbit,
            distance: check.distance,
        }
    }
}
