// Shows how the crates `stats` and `stats_search` are used from Rattle: counts at their edges, and searches through lists whose used part is
// empty, a part, all, or said to be more than there is.
#![tactic(auto)]

use stats_search::has;
use std::io;

fn word(b: bool) -> &'static str {
    if b { "yes" } else { "no" }
}

fn added(rt: &impl Print, count: u32, n: u32) -> io::Result<()> {
    let sum = stats::add(count, n);
    let mark = if sum.carry { ", carried" } else { "" };
    println!(rt; " {count} + {n} = {}{mark}", sum.value)
}

fn links(rt: &impl Print, list: &[u8], used: usize) -> io::Result<()> {
    print!(rt; "links")?;
    cases_show::bytes(rt, list)?;
    print!(rt; " used {used}:")?;
    for link in [0, 7, 255u8] {
        print!(rt; " {link} {},", word(has(list, used, link)))?;
    }
    println!(rt; " twice {}", word(stats_search::has_link_twice(list, used)))
}

fn fee_ids(rt: &impl Print, list: &[u16], used: usize) -> io::Result<()> {
    let [pixel, small, largest] = [0x502A, 42, 65535].map(|id| word(has(list, used, id)));
    println!(rt; "FEE ids, used {used}: 0x502a {pixel}, 42 {small}, 65535 {largest}")
}

fn main(rt: HostRuntime) -> io::Result<()> {
    let rt = &rt;
    added(rt, 0, 1)?;
    added(rt, 4294967293, 1)?;
    added(rt, 4294967294, 1)?;
    added(rt, 4294967295, 1)?;
    added(rt, 0, 0)?;
    added(rt, 4294967295, 0)?;
    added(rt, 4294967290, 5)?;
    added(rt, 4294967290, 6)?;
    added(rt, 4294967290, 65471)?;
    added(rt, 4294967295, 4294967295)?;
    links(rt, b"", 0)?;
    links(rt, b"", 3)?;
    links(rt, &[7, 0, 255], 0)?;
    links(rt, &[7, 0, 255], 1)?;
    links(rt, &[7, 0, 255], 3)?;
    links(rt, &[7, 0, 255], 18446744073709551615)?;
    links(rt, &[7, 0, 255, 7], 3)?;
    links(rt, &[7, 0, 255, 7], 4)?;
    links(rt, &[255, 255], 2)?;
    links(rt, &[0, 1, 0], 3)?;
    let ids = [0x502A, 42, 65535, 42];
    fee_ids(rt, &ids, 0)?;
    fee_ids(rt, &ids, 1)?;
    fee_ids(rt, &ids, 2)?;
    fee_ids(rt, &ids, 4)?;
    fee_ids(rt, &ids, 5)
}
