// Times finding, putting and removing in a table store; without an argument it does nothing.
#![tactic(auto)]

use anyhow::{bail, ensure};
use std::env;
use std::time::Instant;
use store::{Key, Pair, Store, TableStore};

const FINDS: u64 = 2_000_000;

const EDITS: u64 = 20_000;

fn key(address: u64) -> Key {
    Key {
        address,
        module: 7,
        index: 0,
    }
}

// The key of a turn, in an order that does not repeat: a branch predictor would learn it.
fn mixed(turn: u64, mask: u64) -> Key {
    let x = turn.wrapping_mul(0x9E37_79B9_7F4A_7C15);
    let y = (x ^ (x >> 29)).wrapping_mul(0xBF58_476D_1CE4_E5B9);
    key((y >> 32) & mask)
}

// A full store of so many rows, with the addresses from 0.
fn full(rt: &HostRuntime, rows: usize) -> anyhow::Result<TableStore> {
    let Ok(row) = Pair::new(key(0), &[0]) else {
        bail!("one word is no pair");
    };
    let mut store = TableStore::over(vec![in rt.alloc(); row; rows]?);
    for address in 0..rows as u64 {
        ensure!(
            store.put(key(address), &[address]).is_ok(),
            "a put was refused"
        );
    }
    Ok(store)
}

// The nanoseconds of a turn.
fn each(rt: &HostRuntime, start: Instant, turns: u64) -> anyhow::Result<u128> {
    let all = start.elapsed(rt)?.as_nanos();
    if turns == 0 {
        return Ok(0);
    }
    Ok(all / turns as u128)
}

// The store has the addresses up to the mask. What goes wrong is told when the clock has been read.
fn measure(rt: &HostRuntime, rows: usize, mask: u64) -> anyhow::Result<()> {
    let mut store = full(rt, rows)?;
    let mut good = true;
    let start = Instant::now(rt)?;
    for turn in 0..FINDS {
        good = good && store.has(mixed(turn, mask));
    }
    let find = each(rt, start, FINDS)?;
    let start = Instant::now(rt)?;
    for turn in 0..FINDS {
        good = good && store.put(mixed(turn, mask), &[turn, turn]).is_ok();
    }
    let replace = each(rt, start, FINDS)?;
    let start = Instant::now(rt)?;
    for turn in 0..EDITS {
        good = good && store.remove(mixed(turn, mask)).is_ok();
        good = good && store.put(mixed(turn, mask), &[turn]).is_ok();
    }
    let edit = each(rt, start, EDITS)?;
    ensure!(
        good && store.size() == rows as u64,
        "a store answered otherwise than it should"
    );
    println!(rt;
        "{rows:>5} pairs: {find:>4} ns to find, {replace:>4} ns to put a present key, {edit:>6} ns to remove a key and put it back"
    )?;
    Ok(())
}

fn run(rt: &HostRuntime) -> anyhow::Result<()> {
    let mut arguments = env::args(rt)?;
    let _program = arguments.next();
    if arguments.next().is_some() {
        for (rows, mask) in [(16, 15), (256, 255), (4096, 4095)] {
            measure(rt, rows, mask)?;
        }
    }
    Ok(())
}

fn main(rt: HostRuntime) -> anyhow::Result<()> {
    run(&rt)
}
