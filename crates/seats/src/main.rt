// Runs a script of commands and prints what each is answered.
#![tactic(auto)]

use anyhow::ensure;
use script::answer_line;
use std::io::{BufRead, BufReader, Read};
use std::{env, fs, io};

// Answers each line of the source, and says whether all had the form of one: no error, since a bad line is answered and the next one read.
fn run_script<R: Read + Drop>(rt: &HostRuntime, source: R) -> io::Result<bool> {
    let heap = rt.alloc();
    let mut good = true;
    let lines = BufReader::new(heap, source)?.split(heap, b'\n');
    for (index, line) in lines.enumerate() {
        let mut answer = String::new(heap);
        good &= answer_line(heap, index as u64 + 1, &line?, &mut answer)?;
        rt.print(answer)?;
    }
    Ok(good)
}

fn run(rt: &HostRuntime) -> anyhow::Result<()> {
    let good = match env::args(rt)?.nth(1) {
        Some(path) => run_script(rt, fs::open(rt, path)?)?,
        None => run_script(rt, rt.stdin())?,
    };
    ensure!(good, "a line of the script is in no form that is known");
    Ok(())
}

fn main(rt: HostRuntime) -> anyhow::Result<()> {
    run(&rt)
}
