// What a host in C calls: `host/hurzelma.h` declares these functions, with the sizes and the numbers. They allocate nothing, keep
// nothing from one call to the next, and work on the stack, in as many bytes as the header says.
#![tactic(auto)]

mod both;
mod words;

ghost use Rattle.std.specs.Prelude.{◌≡◌, ◌*◌, ◌<◌, ◌≤◌, length};
ghost use Rattle.std.specs.Result.{result_unwrap_or};
ghost use Rattle.registers.specs.House.{house_places};
ghost use Rattle.registers.specs.Meaning.{most_formats};
ghost use Rattle.costs.specs.Kinds.{delays, depths};
ghost use Rattle.bay.specs.Faults.{bay_code, refused};
ghost use Rattle.bay.specs.Limits.{most_legs};
ghost use Rattle.listing.specs.Lengths.{most_answer};
ghost use Rattle.tables.specs.Faults.{table_refusal};
ghost use Rattle.tables.specs.Tables.{own_numbers};
ghost use Rattle.hurzelma.specs.Both.{crossing};
ghost use Rattle.hurzelma.specs.Host.{bookable, fault_number, is_of_leg, is_within, layer_number};
ghost use Rattle.hurzelma.specs.Host.{leg_told, leg_unit, most_cells, route_status, status};
ghost use Rattle.hurzelma.specs.Host.{verdict_of, ForkTold, RouteTold, TableForkTold, TableRouteTold};
ghost use Rattle.hurzelma.specs.Host.{TableTold, TextTold};
ghost use Rattle.hurzelma.specs.Words.{most_words, WordsTold};
ghost use Rattle.hurzelma.specs.declared.TheConstants.{VERSION};

use bay::{BayFault, Cell, Ends, MOST_LEGS};
use both::Both;
use costs::{Cost, Delay, Depth};
use direct::{fork_cards, fork_table, route_cards, route_table};
use listing::answer_on_stack;
use registers::{Bars, Code, Format, Layer, MOST_FORMATS};
use tables::{PLACES, TableFault, check_own_table, check_table};
use ticket::Refusal;
use words::words_told;

// The version: its three numbers, as the file VERSION has them, the first times 65,536 and the second times 256.
const VERSION: u32 = 65_536;

// As many cells as a call over the most formats wants.
const CELLS: usize = MOST_FORMATS * MOST_FORMATS;

// A call over so few formats has a table of its own: to clear the large one would take longer than the call.
const FEW_FORMATS: usize = 16;

// As many cells as a call over few formats wants.
const FEW_CELLS: usize = FEW_FORMATS * FEW_FORMATS;

// The text was written.
const WRITTEN: u32 = 0;

// The place is too short for the text, and is as it was.
const PLACE_SHORT: u32 = 1;

// The formats of a customer's table.
const TABLE_FORMATS: usize = 8;

// What the number of a leg is told in.
const LEG_UNIT: u32 = 16_777_216;

fn layer_number(layer: Layer) -> u32
    ensures number { result ≡ layer_number layer }
    ensures small { result ≤ 3 }
{
    match layer {
        Layer::Ticket => 1,
        Layer::Bay => 2,
        Layer::Register => 3,
    }
}

// A fault as one number, which is not 0.
fn fault_number(code: Code) -> u32
    ensures number { result ≡ fault_number code }
    ensures small { result < leg_unit }
{
    layer_number(code.layer) * 65_536 + u32::from(code.number) * 256 + u32::from(code.part)
}

// What a host is told of a call: 0 where it is granted.
fn status(answer: Result<usize, BayFault>) -> u32
    ensures status { result ≡ status (refused answer) }
    ensures small { result < leg_unit }
{
    match answer {
        Ok(_) => 0,
        Err(fault) => fault_number(fault.code()),
    }
}

// Whether both ends of a leg are among `n` formats.
fn is_within(n: usize, leg: Ends) -> bool
    ensures { result ≡ is_within n leg }
{
    leg.from < n && leg.to < n
}

// How many legs in front can be booked over `n` formats: the number of the first that cannot, if one cannot.
fn bookable(n: usize, legs: &[Ends]) -> usize
    ensures bookable { result ≡ bookable n legs.now }
    ensures few { result ≤ most_legs }
{
    for (k, leg) in legs.iter().enumerate() {
        if !is_within(n, *leg) {
            return k.min(MOST_LEGS);
        }
    }
    legs.len().min(MOST_LEGS)
}

// Whether a fault is that of a leg that cannot be booked.
fn is_of_leg(fault: BayFault) -> bool
    ensures { result ≡ is_of_leg (bay_code fault) }
{
    matches!(
        fault,
        BayFault::FromOutside | BayFault::ToOutside | BayFault::LegsFull
    )
}

// The number of the leg that is told with an answer: of the first that cannot be booked, where that is why; else 0.
fn leg_told(answer: Result<usize, BayFault>, n: usize, legs: &[Ends]) -> usize
    ensures leg { result ≡ leg_told n legs.now (refused answer) }
    ensures few { result ≤ most_legs }
{
    match answer {
        Ok(_) => 0,
        Err(fault) => {
            if is_of_leg(fault) {
                bookable(n, legs)
            } else {
                0
            }
        }
    }
}

// What a host is told of a route: as of every call, and above that the number of a leg.
fn route_status(answer: Result<usize, BayFault>, n: usize, legs: &[Ends]) -> u32
    ensures { result ≡ route_status n legs.now (refused answer) }
{
    leg_told(answer, n, legs) as u32 * LEG_UNIT + status(answer)
}

// A route with a table of so many cells on the stack, which is a function of its own for each number of cells: a route over few
// formats does not take the stack of the largest table. One for each kind: over every kind it would owe that the kind's costs have a
// size.
#[inline(never)]
fn route_delays<const ROOM: usize>(
    n: usize,
    cards: &[Delay],
    legs: &[Ends],
    costs: &mut [Delay],
    chains: &mut [u8],
) -> u32
    requires room { n ≤ most_formats → n * n ≤ ROOM }
    requires size { ROOM ≤ most_cells }
    ensures { RouteTold delays n cards.now legs.now costs.old costs.new
        chains.old chains.new result }
{
    let mut table = [Cell::empty(); ROOM];
    let answer = route_cards(n, cards, legs, &mut table, costs, chains);
    route_status(answer, n, legs)
}

#[inline(never)]
fn route_depths<const ROOM: usize>(
    n: usize,
    cards: &[Depth],
    legs: &[Ends],
    costs: &mut [Depth],
    chains: &mut [u8],
) -> u32
    requires room { n ≤ most_formats → n * n ≤ ROOM }
    requires size { ROOM ≤ most_cells }
    ensures { RouteTold depths n cards.now legs.now costs.old costs.new
        chains.old chains.new result }
{
    let mut table = [Cell::empty(); ROOM];
    let answer = route_cards(n, cards, legs, &mut table, costs, chains);
    route_status(answer, n, legs)
}

#[inline(never)]
fn route_boths<const ROOM: usize>(
    n: usize,
    cards: &[Both],
    legs: &[Ends],
    costs: &mut [Both],
    chains: &mut [u8],
) -> u32
    requires room { n ≤ most_formats → n * n ≤ ROOM }
    requires size { ROOM ≤ most_cells }
    ensures { RouteTold crossing n cards.now legs.now costs.old costs.new
        chains.old chains.new result }
{
    let mut table = [Cell::empty(); ROOM];
    let answer = route_cards(n, cards, legs, &mut table, costs, chains);
    route_status(answer, n, legs)
}

// Routes legs over delays, row by row: 0, or the number of the fault.
#[unsafe(no_mangle)]
pub extern "C" fn hurzelma_route_delay(
    n: usize,
    cards: &[Delay],
    legs: &[Ends],
    costs: &mut [Delay],
    chains: &mut [u8],
) -> u32
    ensures { RouteTold delays n cards.now legs.now costs.old costs.new
        chains.old chains.new result }
{
    if n <= FEW_FORMATS {
        route_delays::<FEW_CELLS>(n, cards, legs, costs, chains)
    } else {
        route_delays::<CELLS>(n, cards, legs, costs, chains)
    }
}

// Routes legs over depths, row by row: 0, or the number of the fault.
#[unsafe(no_mangle)]
pub extern "C" fn hurzelma_route_depth(
    n: usize,
    cards: &[Depth],
    legs: &[Ends],
    costs: &mut [Depth],
    chains: &mut [u8],
) -> u32
    ensures { RouteTold depths n cards.now legs.now costs.old costs.new
        chains.old chains.new result }
{
    if n <= FEW_FORMATS {
        route_depths::<FEW_CELLS>(n, cards, legs, costs, chains)
    } else {
        route_depths::<CELLS>(n, cards, legs, costs, chains)
    }
}

// Routes legs over delays and depths, row by row: 0, or the number of the fault. Depths decide where delays are equal.
#[unsafe(no_mangle)]
pub extern "C" fn hurzelma_route_both(
    n: usize,
    cards: &[Both],
    legs: &[Ends],
    costs: &mut [Both],
    chains: &mut [u8],
) -> u32
    ensures { RouteTold crossing n cards.now legs.now costs.old costs.new
        chains.old chains.new result }
{
    if n <= FEW_FORMATS {
        route_boths::<FEW_CELLS>(n, cards, legs, costs, chains)
    } else {
        route_boths::<CELLS>(n, cards, legs, costs, chains)
    }
}

// What a host is told of a fork: 0 where it is granted, and the format where the input splits.
fn split_status(answer: Result<Format, BayFault>, split: &mut Format) -> u32
    ensures split { split.new ≡ result_unwrap_or answer split.old }
    ensures number { result ≡ status (refused answer) }
{
    if let Ok(format) = answer {
        *split = format;
    }
    status(answer)
}

// A fork with a table of so many cells on the stack, in the same way.
#[inline(never)]
fn fork_delays<const ROOM: usize>(
    n: usize,
    cards: &[Delay],
    input: Format,
    first: Format,
    second: Format,
    costs: &mut [Delay],
    chains: &mut [u8],
    split: &mut Format,
) -> u32
    requires room { n ≤ most_formats → n * n ≤ ROOM }
    requires size { ROOM ≤ most_cells }
    ensures { ForkTold delays n cards.now input first second costs.old costs.new
        chains.old chains.new split.old split.new result }
{
    let mut table = [Cell::empty(); ROOM];
    let answer = fork_cards(n, cards, input, first, second, &mut table, costs, chains);
    split_status(answer, split)
}

#[inline(never)]
fn fork_depths<const ROOM: usize>(
    n: usize,
    cards: &[Depth],
    input: Format,
    first: Format,
    second: Format,
    costs: &mut [Depth],
    chains: &mut [u8],
    split: &mut Format,
) -> u32
    requires room { n ≤ most_formats → n * n ≤ ROOM }
    requires size { ROOM ≤ most_cells }
    ensures { ForkTold depths n cards.now input first second costs.old costs.new
        chains.old chains.new split.old split.new result }
{
    let mut table = [Cell::empty(); ROOM];
    let answer = fork_cards(n, cards, input, first, second, &mut table, costs, chains);
    split_status(answer, split)
}

#[inline(never)]
fn fork_boths<const ROOM: usize>(
    n: usize,
    cards: &[Both],
    input: Format,
    first: Format,
    second: Format,
    costs: &mut [Both],
    chains: &mut [u8],
    split: &mut Format,
) -> u32
    requires room { n ≤ most_formats → n * n ≤ ROOM }
    requires size { ROOM ≤ most_cells }
    ensures { ForkTold crossing n cards.now input first second costs.old costs.new
        chains.old chains.new split.old split.new result }
{
    let mut table = [Cell::empty(); ROOM];
    let answer = fork_cards(n, cards, input, first, second, &mut table, costs, chains);
    split_status(answer, split)
}

// Splits an input over two outputs, over delays, row by row: 0, or the number of the fault.
#[unsafe(no_mangle)]
pub extern "C" fn hurzelma_fork_delay(
    n: usize,
    cards: &[Delay],
    input: usize,
    first: usize,
    second: usize,
    costs: &mut [Delay],
    chains: &mut [u8],
    split: &mut usize,
) -> u32
    ensures { ForkTold delays n cards.now input first second costs.old costs.new
        chains.old chains.new split.old split.new result }
{
    if n <= FEW_FORMATS {
        fork_delays::<FEW_CELLS>(n, cards, input, first, second, costs, chains, split)
    } else {
        fork_delays::<CELLS>(n, cards, input, first, second, costs, chains, split)
    }
}

// Splits an input over two outputs, over depths, row by row: 0, or the number of the fault.
#[unsafe(no_mangle)]
pub extern "C" fn hurzelma_fork_depth(
    n: usize,
    cards: &[Depth],
    input: usize,
    first: usize,
    second: usize,
    costs: &mut [Depth],
    chains: &mut [u8],
    split: &mut usize,
) -> u32
    ensures { ForkTold depths n cards.now input first second costs.old costs.new
        chains.old chains.new split.old split.new result }
{
    if n <= FEW_FORMATS {
        fork_depths::<FEW_CELLS>(n, cards, input, first, second, costs, chains, split)
    } else {
        fork_depths::<CELLS>(n, cards, input, first, second, costs, chains, split)
    }
}

// Splits an input over two outputs, over delays and depths, row by row: 0, or the number of the fault. Depths decide where delays
// are equal.
#[unsafe(no_mangle)]
pub extern "C" fn hurzelma_fork_both(
    n: usize,
    cards: &[Both],
    input: usize,
    first: usize,
    second: usize,
    costs: &mut [Both],
    chains: &mut [u8],
    split: &mut usize,
) -> u32
    ensures { ForkTold crossing n cards.now input first second costs.old costs.new
        chains.old chains.new split.old split.new result }
{
    if n <= FEW_FORMATS {
        fork_boths::<FEW_CELLS>(n, cards, input, first, second, costs, chains, split)
    } else {
        fork_boths::<CELLS>(n, cards, input, first, second, costs, chains, split)
    }
}

// What a host is told of a table: 0 where it passes.
fn table_status(answer: Result<(), TableFault>) -> u32
    ensures { result ≡ status (table_refusal answer) }
{
    match answer {
        Ok(()) => 0,
        Err(fault) => fault_number(fault.code()),
    }
}

// Checks a customer's table into a place: 0, or the number of the fault.
#[unsafe(no_mangle)]
pub extern "C" fn hurzelma_check_table(numbers: &[i32], place: &mut [i32]) -> u32
    ensures { TableTold numbers.now place.old place.new result }
{
    table_status(check_table(numbers, place))
}

// Checks our own table into a place: 0 where that has its length, or the number of the fault.
#[unsafe(no_mangle)]
pub extern "C" fn hurzelma_own_table(place: &mut [i32]) -> u32
    ensures passes { length place.old ≡ house_places → result ≡ 0 }
    ensures told { TableTold own_numbers place.old place.new result }
{
    table_status(check_own_table(place))
}

// Routes legs over the table in a place, under bars: 0, or the number of the fault, which is never that of a loop.
#[unsafe(no_mangle)]
pub extern "C" fn hurzelma_route_table(
    place: &[i32],
    bars: u64,
    legs: &[Ends],
    costs: &mut [Delay],
    chains: &mut [u8],
) -> u32
    ensures { TableRouteTold place.now bars legs.now costs.old costs.new
        chains.old chains.new result }
{
    let mut table = [Cell::empty(); PLACES];
    let bars = Bars { bits: bars };
    let answer = route_table(place, bars, legs, &mut table, costs, chains);
    route_status(answer, TABLE_FORMATS, legs)
}

// Splits an input over two outputs, over the table in a place, under bars: 0, or the number of the fault, which is never that of a
// loop.
#[unsafe(no_mangle)]
pub extern "C" fn hurzelma_fork_table(
    place: &[i32],
    bars: u64,
    input: usize,
    first: usize,
    second: usize,
    costs: &mut [Delay],
    chains: &mut [u8],
    split: &mut usize,
) -> u32
    ensures { TableForkTold place.now bars input first second costs.old costs.new
        chains.old chains.new split.old split.new result }
{
    let mut table = [Cell::empty(); PLACES];
    let bars = Bars { bits: bars };
    let answer = fork_table(place, bars, input, first, second, &mut table, costs, chains);
    split_status(answer, split)
}

// What a host is told of a ticket: the layer that refused it, the number of the cause, the part of the call and the byte. All are 0
// where it is granted.
#[repr(C)]
#[derive(Clone, Copy)]
pub struct Verdict {
    pub layer: u32,
    pub number: u32,
    pub part: u32,
    pub byte: usize,
}

fn verdict_of(answer: Result<usize, Refusal>) -> Verdict
    ensures { result ≡ verdict_of answer }
{
    match answer {
        Ok(_) => Verdict {
            layer: 0,
            number: 0,
            part: 0,
            byte: 0,
        },
        Err(Refusal { fault, byte }) => {
            let code = fault.code();
            Verdict {
                layer: layer_number(code.layer),
                number: u32::from(code.number),
                part: u32::from(code.part),
                byte,
            }
        }
    }
}

// Routes a ticket and writes the text of its answer. The length is that of the text, or what a place too short would need.
#[unsafe(no_mangle)]
pub extern "C" fn hurzelma_answer(
    text: &[u8],
    place: &mut [u8],
    answer_length: &mut usize,
    verdict: &mut Verdict,
) -> u32
    ensures told { TextTold text.now place.old place.new answer_length.new verdict.new result }
    ensures brief { answer_length.new ≤ most_answer }
    ensures suffices { most_answer ≤ length place.old → result ≡ 0 }
{
    let answer = answer_on_stack(text, place);
    *verdict = verdict_of(answer.verdict);
    match answer.text {
        Ok(written) => {
            *answer_length = written;
            WRITTEN
        }
        Err(short) => {
            *answer_length = short.needed;
            PLACE_SHORT
        }
    }
}

// Writes the words of the cause that is told by a number, with whatever leg. The length is that of the words, which is 0 where no
// cause is told so.
#[unsafe(no_mangle)]
pub extern "C" fn hurzelma_fault_text(told: u32, place: &mut [u8], words_length: &mut usize) -> u32
    ensures told { WordsTold told place.old place.new words_length.new result }
    ensures brief { words_length.new ≤ most_words }
{
    let words = words_told(told % LEG_UNIT);
    *words_length = words.len();
    if words.len() > place.len() {
        return PLACE_SHORT;
    }
    place[..words.len()].copy_from_slice(words);
    WRITTEN
}

// The version, as one number.
#[unsafe(no_mangle)]
pub extern "C" fn hurzelma_version() -> u32
    ensures { result ≡ VERSION }
{
    VERSION
}
