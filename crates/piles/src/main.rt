//! Piles of layers over bytes, driven by successions of calls: what each call answers, and what the pile then says of itself.

#![tactic(auto)]

ghost use Rattle.std.specs.Prelude.{◌<◌};

use gap::layer::GapLayer;
use line::answer::{Accepted, Answer};
use line::load::{Activity, Load};
use media::bytes::ByteMedium;
use medium::call::Call;
use medium::left::left;
use medium::medium::Medium;
use refresher::layer::RefreshLayer;
use scatter::layer::ScatterLayer;
use shuffle::feistel::Feistel;
use succession::run::carry_out;

// A load of that time.
fn load(time: u32) -> Load {
    Load {
        time,
        east: -5,
        north: 9,
        tonnes: 100,
        activity: Activity::DUMPING,
    }
}

// Eleven writes to `lines` lines in turn, and then five reads from the first line on, one of them past the last.
fn many(lines: u16) -> [Call<Load>; 16]
    requires { 0 < lines }
{
    let mut calls = [Call::Read(0); 16];
    for (i, call) in (0..16u16).zip(calls.iter_mut()) {
        *call = if i < 11 {
            Call::Write(i % lines, load(u32::from(i)))
        } else {
            Call::Read((i - 11).wrapping_mul(lines / 4))
        };
    }
    calls
}

// Puts the calls to a pile, and prints each answer and the pile's numbers.
fn drive<M: Medium<Line = Load>>(
    rt: &HostRuntime,
    pile: &mut M,
    calls: &[Call<Load>],
) -> anyhow::Result<()> {
    let mut answers: [Answer<Load>; 16] = [Ok(Accepted::Toll(0)); 16];
    let n = carry_out(pile, calls, &mut answers);
    for answer in answers.iter().take(n) {
        match answer {
            Ok(Accepted::Line(load)) => println!(rt; "line {load}")?,
            Ok(Accepted::Toll(toll)) => println!(rt; "toll {toll}")?,
            Err(denial) => println!(rt; "no {denial}")?,
        }
    }
    let taken = (*pile).taken();
    let left = left(&*pile);
    let wear = (*pile).wear();
    println!(rt; "taken {taken} left {left} wear {wear}")?;
    Ok(())
}

// A Feistel scatter over one gap region over five lines of bytes.
fn pile_a(rt: &HostRuntime) -> anyhow::Result<()> {
    let Ok(shuffle) = Feistel::new(1, [1, 0, 1]) else {
        return Ok(());
    };
    let mut bytes = [0u8; 80];
    let mut counts = [0u32; 5];
    let mut medium = ByteMedium::<Load>::new(&mut bytes, &mut counts, 20);
    let mut gap = GapLayer::new(&mut medium, 1, 2);
    let mut pile = ScatterLayer::new(shuffle, &mut gap);
    let calls = [
        Call::Write(3, load(7)),
        Call::Write(4, load(7)),
        Call::Write(0, load(7)),
        Call::Read(3),
        Call::Read(1),
    ];
    drive(rt, &mut pile, &calls)?;
    let copies = gap.copies();
    println!(rt; "copies {copies}")?;
    Ok(())
}

// A refresh layer over nine lines of bytes.
fn pile_b(rt: &HostRuntime) -> anyhow::Result<()> {
    let mut bytes = [0u8; 144];
    let mut counts = [0u32; 9];
    let mut medium = ByteMedium::<Load>::new(&mut bytes, &mut counts, 30);
    let mut pile = RefreshLayer::new(&mut medium, &[4, 6, 1, 3], 1);
    drive(rt, &mut pile, &many(8))?;
    let copies = pile.copies();
    println!(rt; "copies {copies}")?;
    Ok(())
}

// A Feistel scatter over a refresh layer over two gap regions over ten lines of bytes.
fn pile_c(rt: &HostRuntime) -> anyhow::Result<()> {
    let Ok(shuffle) = Feistel::new(1, [4, 6, 1]) else {
        return Ok(());
    };
    let mut bytes = [0u8; 160];
    let mut counts = [0u32; 10];
    let mut medium = ByteMedium::<Load>::new(&mut bytes, &mut counts, 40);
    let mut gap = GapLayer::new(&mut medium, 2, 2);
    let mut refresh = RefreshLayer::new(&mut gap, &[4, 6, 1, 3], 2);
    let mut pile = ScatterLayer::new(shuffle, &mut refresh);
    drive(rt, &mut pile, &many(4))?;
    let of_refresh = refresh.copies();
    let of_gap = gap.copies();
    println!(rt; "copies {of_gap} {of_refresh}")?;
    Ok(())
}

fn main(rt: HostRuntime) -> anyhow::Result<()> {
    pile_a(&rt)?;
    pile_b(&rt)?;
    pile_c(&rt)
}
