// A ticket in memory that may be too short for it.
use bay::Cell;
use costs::Delay;
use ticket::{Ends, MOST_CODES, MOST_LEGS, Memory, read_bay, route_ticket};

const TICKET: &[u8] =
    b"(bay delay 2)\n(format 0 UYVY)\n(format 1 v210)\n(card (0 1) 4)\n(leg (0 1))\n(leg (1 0))\n(end)\n";

// How much is lent.
#[derive(Clone, Copy)]
struct Room {
    entries: usize,
    cells: usize,
    costs: usize,
    bytes: usize,
}

// Just enough for the ticket.
const ENOUGH: Room = Room {
    entries: 512,
    cells: 4,
    costs: 2,
    bytes: 132,
};

// The ticket's answer, and whether a sheet was written.
fn answer_in(rt: &HostRuntime, what: &str, room: Room) -> anyhow::Result<()> {
    let heap = rt.alloc();
    let mut entries = vec![in heap; None; room.entries]?;
    let mut table = vec![in heap; Cell::empty(); room.cells]?;
    let mut costs = vec![in heap; Delay { half_lines: 7 }; room.costs]?;
    let mut chains = vec![in heap; 9; room.bytes]?;
    let mut memory = Memory {
        entries: entries.as_mut_slice(),
        table: table.as_mut_slice(),
        costs: costs.as_mut_slice(),
        chains: chains.as_mut_slice(),
        codes: &mut [[0; 4]; MOST_CODES],
        ends: &mut [Ends { from: 0, to: 0 }; MOST_LEGS],
    };
    let answer = read_bay(TICKET).and_then(|bay| route_ticket(TICKET, bay, &mut memory));
    drop(memory);
    match answer {
        Ok(legs) => println!(rt; "{what}: {legs} legs")?,
        Err(refusal) => println!(rt; "{what}: {} at {}", refusal.fault.code(), refusal.byte)?,
    }
    let as_found = costs.iter().all(|cost| cost.half_lines == 7)
        && chains.iter().all(|byte| *byte == 9);
    println!(rt; "sheets {}", if as_found { "as found" } else { "written" })?;
    Ok(())
}

pub fn short_memory(rt: &HostRuntime) -> anyhow::Result<()> {
    answer_in(rt, "ticket with room", ENOUGH)?;
    answer_in(
        rt,
        "an entry less",
        Room {
            entries: 511,
            ..ENOUGH
        },
    )?;
    answer_in(rt, "a cell less", Room { cells: 3, ..ENOUGH })?;
    answer_in(rt, "a cost less", Room { costs: 1, ..ENOUGH })?;
    answer_in(
        rt,
        "a byte less",
        Room {
            bytes: 131,
            ..ENOUGH
        },
    )
}
