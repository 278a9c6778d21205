// Shows how the crate `chain_replay` is used from Rattle: a list of calls over a recording of three packets, the last of which is cut, with
// a filter for link 1. Each line is the last reply to the first calls of the list, one more for each line.
#![tactic(auto)]

ghost use Rattle.std.specs.Prelude.{◌≤◌};

use chain_replay::Replayed;
use chain_replay_calls::{Asked, CallKind, Called, Told};
use filter::FilterOpt;
use scan_cdp::{LoadCdp, Part, Progress, Refusal, Scan, Settings, State};
use std::io;

// The calls: a window that ends in the payload, and a longer one; one behind the byte place; a header of link 2; all that is left; the end;
// and a call behind it.
fn calls() -> [Asked; 7] {
    [
        asked(CallKind::Load, 0, 79, true),
        asked(CallKind::Load, 0, 80, false),
        asked(CallKind::Load, 81, 216, true),
        asked(CallKind::Examination, 80, 64, true),
        asked(CallKind::Load, 120, 216, true),
        asked(CallKind::Load, 0, 216, true),
        asked(CallKind::Load, 0, 216, true),
    ]
}

fn asked(kind: CallKind, first: u64, size: u64, last: bool) -> Asked {
    Asked {
        kind,
        first,
        size,
        last,
    }
}

fn main(rt: HostRuntime) -> io::Result<()> {
    let rt = &rt;
    let recording = recording();
    let calls = calls();
    for first in 0..=calls.len() {
        replayed(rt, &recording, &calls, first)?;
    }
    Ok(())
}

// Packets of links 1, 2 and 1, with 16 bytes, none and 32 bytes of payload, of which 8 are left.
fn recording() -> [u8; 216] {
    let mut bytes = [0u8; 216];
    packet(&mut bytes, 0, 80, 1, 0x1);
    bytes[64] = 0xA0;
    bytes[79] = 0xAF;
    packet(&mut bytes, 80, 64, 2, 0x3);
    packet(&mut bytes, 144, 96, 1, 0x5);
    bytes
}

// The fields of a header that a scan goes by, FEE id, offset, memory size and link; and the trigger type, which it counts.
fn packet(bytes: &mut [u8; 216], at: usize, size: u8, link: u8, trigger: u8)
    requires { at ≤ 144 }
{
    bytes[at + 2] = link;
    bytes[at + 8] = size;
    bytes[at + 10] = size;
    bytes[at + 12] = link;
    bytes[at + 32] = trigger;
}

fn settings() -> Settings {
    Settings {
        filter: FilterOpt {
            filter_link: Some(1),
            ..FilterOpt::default()
        },
        skip_payload: false,
        stats: true,
    }
}

fn replayed(rt: &impl Print, recording: &[u8], calls: &[Asked; 7], first: usize) -> io::Result<()>
    requires { first ≤ 7 }
{
    let mut state = State::new();
    let mut fee_ids = [0; 2];
    let mut scan = Scan {
        set: settings(),
        progress: state.progress,
        links: &mut state.links,
        triggers: &mut state.triggers,
        fee_ids: &mut fee_ids,
    };
    let replayed = replay(&mut scan, recording, calls, first);
    let progress = scan.progress;
    cases_show::text(rt, b"made")?;
    cases_show::number(rt, replayed.made as u64)?;
    told(rt, recording, replayed.last)?;
    left(rt, progress)?;
    counted(rt, state.triggers[0], state.triggers[1], state.triggers[2])?;
    if replayed.last.is_some_and(|called| called.ends) {
        cases_show::text(rt, b", the end")?;
    }
    cases_show::end(rt)
}

// An even number of calls is asked for by one list, an odd one by four, of which the first alone is cut to that number.
fn replay(scan: &mut Scan, recording: &[u8], calls: &[Asked; 7], first: usize) -> Replayed
    requires { first ≤ 7 }
{
    if first % 2 == 0 {
        return chain_replay::replay(scan, recording, &calls[..first]);
    }
    let loads = calls.map(|asked| asked.kind == CallKind::Load);
    let firsts = calls.map(|asked| asked.first);
    let sizes = calls.map(|asked| asked.size);
    let lasts = calls.map(|asked| asked.last);
    chain_replay::replay_lists(scan, recording, &loads[..first], &firsts, &sizes, &lasts)
}

fn told(rt: &impl Print, recording: &[u8], last: Option<Called>) -> io::Result<()> {
    let Some(called) = last else {
        return cases_show::text(rt, b" nothing");
    };
    match called.told {
        Told::Examination(answer, _) => match answer {
            Ok(None) => cases_show::text(rt, b" passed"),
            Ok(Some(found)) => answered(rt, recording, called.window, found),
            Err(why) => refused(rt, why),
        },
        Told::Load(answer, marks) => {
            match answer {
                Ok(found) => answered(rt, recording, called.window, found)?,
                Err(why) => refused(rt, why)?,
            }
            if marks.payload_cut {
                cases_show::text(rt, b" cut")?;
            }
            Ok(())
        }
    }
}

fn answered(rt: &impl Print, recording: &[u8], window: Part, found: LoadCdp) -> io::Result<()> {
    match found {
        LoadCdp::Packet(packet) => {
            cases_show::text(rt, b" packet")?;
            cases_show::number(rt, packet.position.0)?;
            cases_show::number(rt, packet.own.0)?;
            cases_show::bytes(
                rt,
                chain_replay_calls::payload(recording, window, packet.payload),
            )
        }
        LoadCdp::Want(place, size) => {
            cases_show::text(rt, b" want")?;
            cases_show::number(rt, place.0)?;
            cases_show::number(rt, size)
        }
    }
}

fn refused(rt: &impl Print, why: Refusal) -> io::Result<()> {
    cases_show::text(rt, b" refused")?;
    cases_show::number(rt, why.number() as u64)
}

fn left(rt: &impl Print, progress: Progress) -> io::Result<()> {
    cases_show::text(rt, b", place")?;
    cases_show::number(rt, progress.place.0)?;
    cases_show::text(rt, b" position")?;
    cases_show::number(rt, progress.position.0)?;
    cases_show::text(rt, b" counts")?;
    cases_show::number(rt, progress.counts.seen as u64)?;
    cases_show::number(rt, progress.counts.filtered as u64)?;
    cases_show::number(rt, progress.counts.payload as u64)
}

// The trigger counts of the bits that the headers have.
fn counted(rt: &impl Print, orbit: u32, hb: u32, hbr: u32) -> io::Result<()> {
    cases_show::text(rt, b" triggers")?;
    cases_show::number(rt, orbit as u64)?;
    cases_show::number(rt, hb as u64)?;
    cases_show::number(rt, hbr as u64)
}
