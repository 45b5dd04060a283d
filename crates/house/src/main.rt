// Routes legs and splits inputs over the house table, or over a customer's. Standard input has a leg a line, as `4 2`, or a fork, as
// `fork 4 2 6`: an input and the two outputs that it is split over. A line `bar 0` asks for all of them once more with that format out
// of use. A line `row` has the next numbers of a customer's table, in half lines, or `none` where no card stands; a line `own` has
// those of the house table.
#![tactic(auto)]

use anyhow::{Context, anyhow};
use bay::{Answer, Bay, CHAIN_BYTES, Call, Cell, MOST_LEGS, ROW, SPLIT_ROWS};
use costs::Delay;
use registers::{Bars, Code, Format, HouseTable, Over};
use tables::{
    Gainless, LoadedTable, NO_CARD, PLACES, check_own_table, check_table, fork_gainless,
    route_gainless,
};

// An input that is to be split over two outputs.
#[derive(Clone, Copy)]
struct Fork {
    input: Format,
    first: Format,
    second: Format,
}

// What the input asks for: the formats that are barred, the legs to book, the forks, and the numbers of a customer's table.
#[derive(Drop)]
struct Job {
    bars: u64,
    legs: Vec<Call<Delay>>,
    forks: Vec<Fork>,
    numbers: Vec<i32>,
}

impl Job {
    // The job that standard input has.
    fn read(rt: &HostRuntime) -> anyhow::Result<Job> {
        let mut job = Job {
            bars: 0,
            legs: Vec::new(rt.alloc()),
            forks: Vec::new(rt.alloc()),
            numbers: Vec::new(rt.alloc()),
        };
        for line in rt.lines(rt.alloc()) {
            job.add(line?.as_str())?;
        }
        Ok(job)
    }

    // Adds what one line of the input asks for.
    fn add(&mut self, line: &str) -> anyhow::Result<()> {
        let mut words = line.split_whitespace();
        match (words.next(), words.next()) {
            (Some("bar"), word) => {
                let format = number(word)?;
                if format < u64::BITS as usize {
                    self.bars |= 1 << format;
                }
            }
            (Some("row"), word) => {
                self.add_number(word)?;
                for word in words {
                    self.add_number(Some(word))?;
                }
            }
            (Some("own"), None) => self.add_own()?,
            (Some("fork"), input) => {
                let input = number(input)?;
                let first = number(words.next())?;
                let second = number(words.next())?;
                self.forks.push(Fork {
                    input,
                    first,
                    second,
                })?;
            }
            (from, to) => {
                let from = number(from)?;
                let to = number(to)?;
                self.legs.push(Call::Book { from, to })?;
            }
        }
        Ok(())
    }

    // Adds a number to the customer's table.
    fn add_number(&mut self, word: Option<&str>) -> anyhow::Result<()> {
        let number = match word {
            Some("none") => NO_CARD,
            word => half_lines(word)?,
        };
        self.numbers.push(number)?;
        Ok(())
    }

    // Adds the numbers of the house table to the customer's.
    fn add_own(&mut self) -> anyhow::Result<()> {
        let mut own = [NO_CARD; PLACES];
        check_own_table(&mut own).map_err(|fault| anyhow!("our own table: {}", fault.code()))?;
        for number in own {
            self.numbers.push(number)?;
        }
        Ok(())
    }
}

fn number(word: Option<&str>) -> anyhow::Result<usize> {
    word.context("a line has two formats, bar and a format, or fork and three formats")?
        .parse()
        .map_err(|_| anyhow!("a format is a whole number"))
}

fn half_lines(word: Option<&str>) -> anyhow::Result<i32> {
    word.context("a row has numbers")?.parse().map_err(|_| anyhow!(
        "half lines are a whole number of 32 bits, or none"
    ))
}

// The formats of a row, behind the byte that counts them. Cut here, since this program stands on the bay and knows no listing.
fn formats(row: &[u8]) -> &[u8] {
    match row.split_first() {
        Some((count, bytes)) => bytes.get(..usize::from(*count)).unwrap_or(bytes),
        None => row,
    }
}

// Formats, as ` 4 3 0 2`.
fn print_formats(rt: &HostRuntime, formats: &[u8]) -> anyhow::Result<()> {
    for format in formats {
        print!(rt; " {format}")?;
    }
    Ok(())
}

fn print_routes(rt: &HostRuntime, costs: &[Delay], chains: &[u8]) -> anyhow::Result<()> {
    for (k, (cost, row)) in costs.iter().zip(chains.chunks(ROW)).enumerate() {
        let formats = formats(row);
        if formats.is_empty() {
            println!(rt; "leg {k}: none")?;
        } else {
            print!(rt; "leg {k}: {} half lines by", cost.half_lines)?;
            print_formats(rt, formats)?;
            println!(rt; "")?;
        }
    }
    Ok(())
}

// A split, what it costs, and its chains, as `split at 1, 6 half lines by 1, then 1 5 and 1 6`.
fn print_split(rt: &HostRuntime, split: Format, total: Delay, chains: &[u8]) -> anyhow::Result<()> {
    print!(rt; "split at {split}, {} half lines", total.half_lines)?;
    for (word, row) in [" by", ", then", " and"].iter().zip(chains.chunks(ROW)) {
        print!(rt; "{word}")?;
        print_formats(rt, formats(row))?;
    }
    println!(rt; "")?;
    Ok(())
}

// Why a call is refused.
fn print_refusal(rt: &HostRuntime, code: Code) -> anyhow::Result<()> {
    let Code { number, part, .. } = code;
    println!(rt; "refused: {number}, part {part}")?;
    Ok(())
}

// Splits the input of each fork over its outputs, and prints what came of it. A fork finds no loop.
fn serve_forks<R: Gainless<Cost = Delay>>(
    rt: &HostRuntime,
    bay: &Bay<R>,
    forks: &[Fork],
) -> anyhow::Result<()> {
    let mut table = [Cell::empty(); PLACES];
    let mut total = [Delay { half_lines: 0 }];
    let mut chains = [255; SPLIT_ROWS * ROW];
    for fork in forks {
        let Fork {
            input,
            first,
            second,
        } = *fork;
        print!(rt; "fork {input} {first} {second}: ")?;
        match fork_gainless(
            bay,
            input,
            first,
            second,
            &mut table,
            &mut total,
            &mut chains,
        ) {
            Ok(split) => print_split(rt, split, total[0], &chains)?,
            Err(fault) => print_refusal(rt, fault.code())?,
        }
    }
    Ok(())
}

// Books the legs on the bay, routes them, and prints what came of it. The route finds no loop.
fn serve_legs<R: Gainless<Cost = Delay>>(
    rt: &HostRuntime,
    bay: &mut Bay<R>,
    legs: &[Call<Delay>],
) -> anyhow::Result<()> {
    let mut table = [Cell::empty(); PLACES];
    let mut costs = [Delay { half_lines: 0 }; MOST_LEGS];
    let mut chains = [255; CHAIN_BYTES];
    let mut answers = vec![in rt.alloc(); Answer::Looped; legs.len()]?;
    bay.run(legs, &mut answers, &mut table, &mut costs, &mut chains)
        .map_err(|fault| anyhow!("the list of calls is refused: {}", fault.code()))?;
    for answer in answers.iter() {
        if let Answer::Refused(fault) = *answer {
            print_refusal(rt, fault.code())?;
        }
    }
    match route_gainless(bay, &mut table, &mut costs, &mut chains) {
        Ok(legs) => print_routes(rt, costs.get(..legs).unwrap_or(&costs), &chains),
        Err(fault) => print_refusal(rt, fault.code()),
    }
}

// The legs and the forks over a new bay. Where only forks are asked for, no route is made.
fn serve<R: Gainless<Cost = Delay> + Drop>(
    rt: &HostRuntime,
    register: R,
    job: &Job,
) -> anyhow::Result<()> {
    let mut bay = Bay::new(register);
    if !job.legs.is_empty() || job.forks.is_empty() {
        serve_legs(rt, &mut bay, &job.legs)?;
    }
    serve_forks(rt, &bay, &job.forks)
}

// The bare register, and where formats are barred all once more under the bars.
fn serve_twice<R: Gainless<Cost = Delay> + Copy + Drop>(
    rt: &HostRuntime,
    register: R,
    job: &Job,
) -> anyhow::Result<()> {
    serve(rt, register, job)?;
    if job.bars != 0 {
        println!(rt; "under the bars:")?;
        serve(rt, Over::new(register, Bars { bits: job.bars }), job)?;
    }
    Ok(())
}

// Over the house table, or over a customer's, if it passes the check.
fn run(rt: &HostRuntime) -> anyhow::Result<()> {
    let job = Job::read(rt)?;
    if job.numbers.is_empty() {
        println!(rt; "over the house table:")?;
        return serve_twice(rt, HouseTable, &job);
    }
    let mut place = [NO_CARD; PLACES];
    println!(rt; "over the customer's table:")?;
    match check_table(&job.numbers, &mut place) {
        Ok(()) => serve_twice(rt, LoadedTable::new(&place), &job),
        Err(fault) => print_refusal(rt, fault.code()),
    }
}

fn main(rt: HostRuntime) -> anyhow::Result<()> {
    run(&rt)
}
