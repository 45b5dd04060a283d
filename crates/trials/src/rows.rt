// How many rows the first stage goes through.
use bay::{Cell, rows_passed};
use registers::{Bars, HouseTable, Over, Register, Turned};

// Prints the number of rows over a register of so many formats, or why it is refused.
pub fn print_rows<R: Register>(
    rt: &HostRuntime,
    what: &str,
    register: &R,
    n: usize,
) -> anyhow::Result<()> {
    let mut table = vec![in rt.alloc(); Cell::empty(); n.saturating_mul(n)]?;
    match rows_passed(register, &mut table) {
        Ok(rows) => println!(rt; "  {what}: {rows}")?,
        Err(fault) => println!(rt; "  {what}: {}", fault.code())?,
    }
    Ok(())
}

// Over the house table: bare, under a bar on each format in turn, and turned round.
pub fn house_rows(rt: &HostRuntime) -> anyhow::Result<()> {
    println!(rt; "the house table:")?;
    print_rows(rt, "rows", &HouseTable, 8)?;
    for format in 0..8u32 {
        let barred = Over::new(HouseTable, Bars { bits: 1 << format });
        print_rows(rt, "rows under a bar", &barred, 8)?;
    }
    print_rows(rt, "rows turned round", &Over::new(HouseTable, Turned), 8)?;
    print_rows(rt, "rows in a short table", &HouseTable, 7)
}
