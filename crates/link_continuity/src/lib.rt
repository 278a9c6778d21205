// Whether the packets of each link run on, or some were lost between them. What is kept for the links stands apart from a scan's state: whoever
// asks puts the headers that a scan hands out, one after the other.
#![tactic(auto)]

ghost use Rattle.std.specs.Prelude.{◌≡◌};
ghost use Rattle.link_continuity.specs.Arrays.{arrays, arrays_after, kept_of, links_of};
ghost use Rattle.link_continuity.specs.Link.{behind, last_of, next_packet_counter, next_pages_counter, stops, yields};
ghost use Rattle.link_continuity.specs.Links.{yields_on};

use rdh::rdh_cru::RdhCru;

// How many links there are: a link's number is a byte.
pub const LINKS: usize = 256;

// What is kept of the last header that was put on a link. Of a link with no header yet, nothing is: what is kept of a link is an Option of this.
#[derive(Clone, Copy, Debug, PartialEq, Eq)]
pub struct LastHeader {
    pub packet_counter: u8,
    pub pages_counter: u16,
    pub orbit: u32,
    pub stop_bit: u8,
}

// What a header yields: a flag for each field that is not as it must be behind the last header, and how far its packet counter is ahead of the
// expected one, modulo 256.
#[derive(Clone, Copy, Debug, Default, PartialEq, Eq)]
pub struct LinkCheck {
    pub packet_counter: bool,
    pub pages_counter: bool,
    pub orbit: bool,
    pub distance: u8,
}

// What a header leaves to be kept.
impl From<RdhCru> for LastHeader {
    fn from(rdh: RdhCru) -> LastHeader
        ensures { result ≡ last_of rdh }
    {
        LastHeader {
            packet_counter: rdh.packet_counter,
            pages_counter: rdh.rdh2.pages_counter,
            orbit: rdh.rdh1.orbit,
            stop_bit: rdh.rdh2.stop_bit,
        }
    }
}

impl LastHeader {
    // Whether the header was a stop: any stop bit but 0 is one.
    fn is_stop(self) -> bool
        ensures { result ≡ stops self }
    {
        self.stop_bit != 0
    }

    // The packet counter that must come behind it: 0 behind 255.
    fn next_packet_counter(self) -> u8
        ensures { result ≡ next_packet_counter self }
    {
        self.packet_counter.wrapping_add(1)
    }

    // The pages counter that must come behind it: 0 behind 65,535, and behind a stop.
    fn next_pages_counter(self) -> u16
        ensures { result ≡ next_pages_counter self }
    {
        if self.is_stop() {
            0
        } else {
            self.pages_counter.wrapping_add(1)
        }
    }

    // What the values of a header yield behind its own.
    #[tactic(auto, unfolding(crate::specs::Link::behind))]
    fn check_behind(self, new: LastHeader) -> LinkCheck
        ensures { result ≡ behind self new }
    {
        let packet_counter = self.next_packet_counter();
        LinkCheck {
            packet_counter: new.packet_counter != packet_counter,
            pages_counter: new.pages_counter != self.next_pages_counter(),
            orbit: !self.is_stop() && new.orbit != self.orbit,
            distance: new.packet_counter.wrapping_sub(packet_counter),
        }
    }
}

// What a header yields on a link of which this is kept. The first header of a link is taken as it comes.
#[tactic(auto, unfolding(crate::specs::Link::yields))]
pub fn check_kept(kept: Option<LastHeader>, rdh: RdhCru) -> LinkCheck
    ensures { result ≡ yields kept rdh }
{
    match kept {
        None => LinkCheck::default(),
        Some(last) => last.check_behind(LastHeader::from(rdh)),
    }
}

// What is kept of a link, by the entries that the five arrays have for it.
#[tactic(auto, unfolding(crate::specs::Arrays::kept_of))]
fn kept_of(seen: u8, last: LastHeader) -> Option<LastHeader>
    ensures { result ≡ kept_of seen last }
{
    (seen != 0).then_some(last)
}

// What a header yields on its link, and the header becomes the last one of that link. The five arrays have an entry for each link; where `seen`
// has 0, nothing is kept, and the other four do not matter.
#[tactic(auto, unfolding(crate::specs::Arrays::arrays_after))]
pub fn check_link(
    rdh: RdhCru,
    seen: &mut [u8; LINKS],
    packet_counters: &mut [u8; LINKS],
    pages_counters: &mut [u16; LINKS],
    orbits: &mut [u32; LINKS],
    stop_bits: &mut [u8; LINKS],
) -> LinkCheck
    ensures yields { result
        ≡ yields_on
        (links_of
        (arrays seen.old packet_counters.old pages_counters.old
        orbits.old stop_bits.old))
        rdh }
    ensures keeps { arrays seen.new packet_counters.new pages_counters.new
        orbits.new stop_bits.new
        ≡ arrays_after
        (arrays seen.old packet_counters.old pages_counters.old
        orbits.old stop_bits.old)
        rdh }
{
    let link = rdh.link_id as usize;
    let last = LastHeader {
        packet_counter: packet_counters[link],
        pages_counter: pages_counters[link],
        orbit: orbits[link],
        stop_bit: stop_bits[link],
    };
    let check = check_kept(kept_of(seen[link], last), rdh);
    let new = LastHeader::from(rdh);
    seen[link] = 1;
    packet_counters[link] = new.packet_counter;
    pages_counters[link] = new.pages_counter;
    orbits[link] = new.orbit;
    stop_bits[link] = new.stop_bit;
    check
}
