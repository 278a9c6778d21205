// The check of a header on its link.

ghost use Rattle.std.specs.Prelude.{◌≡◌};
ghost use Rattle.link_continuity.specs.Arrays.{arrays, arrays_after, links_of};
ghost use Rattle.link_continuity.specs.Links.{yields_on};
ghost use Rattle.doors_header_structs.specs.Plain.{header_of};
ghost use Rattle.doors_links.specs.Plain.{plain_link_check};

use doors_header_structs::plain::PlainHeader;
use doors_links::PlainLinkCheck;
use link_continuity::LINKS;

// What a header yields on its link, of which it becomes the last one.
#[unsafe(no_mangle)]
pub extern "C" fn kesarimbu_check_link(
    header: PlainHeader,
    seen: &mut [u8; LINKS],
    packet_counters: &mut [u8; LINKS],
    pages_counters: &mut [u16; LINKS],
    orbits: &mut [u32; LINKS],
    stop_bits: &mut [u8; LINKS],
) -> PlainLinkCheck
    ensures yields { result
        ≡ plain_link_check
        (yields_on
        (links_of
        (arrays seen.old packet_counters.old pages_counters.old
        orbits.old stop_bits.old))
        (header_of header)) }
    ensures keeps { arrays seen.new packet_counters.new pages_counters.new
        orbits.new stop_bits.new
        ≡ arrays_after
        (arrays seen.old packet_counters.old pages_counters.old
        orbits.old stop_bits.old)
        (header_of header) }
{
    doors_links::kesarimbu_check_link(
        header,
        seen,
        packet_counters,
        pages_counters,
        orbits,
        stop_bits,
    )
}
