// Answers every ticket of a table on standard input, and counts the answers that the table does not have.
#![tactic(auto)]

mod table;
mod trial;

use anyhow::anyhow;
use std::io::Read;
use table::Table;
use trial::Trial;

// The table has fewer bytes.
const MOST_TABLE: u64 = 1_000_000;

// Tries all cases of the table, and prints how many there were.
fn try_all(rt: &HostRuntime, text: &[u8]) -> anyhow::Result<()> {
    let mut table = Table::new(text);
    let mut trial = Trial::new(rt.alloc())?;
    // Each record has a byte at least.
    for _ in 0..text.len() {
        let record = table.record().ok_or(anyhow!("the table is not well made"))?;
        if !trial.take(record)? {
            println!(rt;
                "{} cases, {} answered wrongly",
                trial.cases(),
                trial.wrong()
            )?;
            return Ok(());
        }
    }
    Err(anyhow!("the table has no end"))
}

fn run(rt: &HostRuntime) -> anyhow::Result<()> {
    let mut text = Vec::new(rt.alloc());
    rt.stdin().take(MOST_TABLE).read_to_end(&mut text)?;
    try_all(rt, text.as_slice())
}

fn main(rt: HostRuntime) -> anyhow::Result<()> {
    run(&rt)
}
