//! The word and the load as bytes, and buffers of another length.

use crate::number::number;
use line::kind::LineKind;
use line::load::{Activity, Load};

const LOAD: Load = Load {
    time: 7,
    east: -5,
    north: 9,
    tonnes: 100,
    activity: Activity::DUMPING,
};

pub(crate) fn kinds(rt: &HostRuntime) -> anyhow::Result<()> {
    let mut buf = [9u8; 17];
    let short = number(&LOAD.write_to(&mut buf[0..15]));
    let long = number(&LOAD.write_to(&mut buf));
    println!(rt; "load into 15: {short}, into 17: {long}, then {buf:?}")?;
    let fits = number(&LOAD.write_to(&mut buf[0..16]));
    println!(rt; "load into 16: {fits}, then {buf:?}")?;
    let word = number(&258u64.write_to(&mut buf[0..8]));
    println!(rt; "word into 8: {word}, then {buf:?}")?;
    reads(rt)
}

// The spare byte is not looked at, and an activity without a name is kept.
fn reads(rt: &HostRuntime) -> anyhow::Result<()> {
    let mut buf = [255u8; 17];
    for n in [15, 16, 17] {
        match Load::read_from(&buf[0..n]) {
            Ok(load) => println!(rt; "load from {n}: {load}")?,
            Err(denial) => println!(rt; "load from {n}: no {denial}")?,
        }
    }
    buf[15] = 0;
    let same = Load::read_from(&buf[0..16]) == Load::read_from(&[255u8; 16]);
    println!(rt; "another spare byte, the same load: {same}")?;
    Ok(())
}
