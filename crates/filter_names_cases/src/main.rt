// Shows how the crate `filter_names` is used from Rattle: names of staves, and some of none, put to filters of which none is set or some are;
// and which of five FEE ids these then take on link 2.
#![tactic(auto)]

use filter::FilterOpt;
use its_names::NotAStaveName;
use std::io;

const STAVES: [&str; 4] = ["L6_47", "L06_047", "L+6_+47", "L0_0"];

const NO_STAVES: [&str; 6] = ["L6_48", "L7_0", "L0_48", "L9_70", "L255_255", "L256_0"];

const BOTH: [&str; 2] = ["L1_6", "L9_70"];

fn show_answer(rt: &impl Print, named: Result<u16, NotAStaveName>) -> io::Result<()> {
    match named {
        Ok(id) => cases_show::hex(rt, id as u64),
        Err(_) => cases_show::text(rt, b" refused"),
    }
}

fn show_link(rt: &impl Print, link: Option<u8>) -> io::Result<()> {
    match link {
        Some(id) => cases_show::number(rt, id as u64),
        None => cases_show::text(rt, b" none"),
    }
}

fn show_fee_id(rt: &impl Print, fee_id: Option<u16>) -> io::Result<()> {
    match fee_id {
        Some(id) => cases_show::hex(rt, id as u64),
        None => cases_show::text(rt, b" none"),
    }
}

fn show_filters(rt: &impl Print, opt: FilterOpt) -> io::Result<()> {
    cases_show::text(rt, b"; link")?;
    show_link(rt, opt.filter_link)?;
    cases_show::text(rt, b", FEE id")?;
    show_fee_id(rt, opt.filter_fee)?;
    cases_show::text(rt, b", stave")?;
    show_fee_id(rt, opt.filter_its_stave)
}

fn show_taken(rt: &impl Print, opt: FilterOpt) -> io::Result<()> {
    cases_show::text(rt, b"; takes")?;
    let target = filter::filter_target(opt);
    for fee_id in [0x602F, 0x632F, 0x602E, 0x1006, 0x0000] {
        if filter::is_rdh_filter_target(2, fee_id, target) {
            cases_show::hex(rt, fee_id as u64)?;
        }
    }
    Ok(())
}

// Each name is put to the filters as they were.
fn put(rt: &impl Print, opt: FilterOpt, names: &[&str]) -> io::Result<()> {
    for &name in names {
        let mut set = opt;
        cases_show::text(rt, name.as_bytes())?;
        let named = filter_names::set_filter_its_stave(&mut set, name.as_bytes());
        show_answer(rt, named)?;
        show_filters(rt, set)?;
        show_taken(rt, set)?;
        cases_show::end(rt)?;
    }
    Ok(())
}

fn main(rt: HostRuntime) -> io::Result<()> {
    let rt = &rt;
    let unset = FilterOpt::default();
    put(rt, unset, &STAVES)?;
    put(rt, unset, &NO_STAVES)?;
    let by_stave = FilterOpt {
        filter_its_stave: Some(0x602E),
        ..unset
    };
    put(rt, by_stave, &BOTH)?;
    let by_fee = FilterOpt {
        filter_fee: Some(0x602F),
        ..unset
    };
    put(rt, by_fee, &BOTH)?;
    let by_all = FilterOpt {
        filter_link: Some(2),
        filter_fee: Some(0x602F),
        filter_its_stave: Some(0x602E),
    };
    put(rt, by_all, &BOTH)
}
