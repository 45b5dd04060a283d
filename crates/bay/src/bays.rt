// A register and the legs that are to be routed over its cards.
ghost use Rattle.std.specs.Prelude.{◌≡◌, ◌+◌, ◌*◌, ◌≤◌, true, [], ◌∷◌, ◌++◌, length, map, All, IfOk, OnErr, OnOk, slice_index_or};
ghost use Rattle.registers.specs.Fault.{first_cause, after};
ghost use Rattle.bay.specs.Faults.{refused};
ghost use Rattle.bay.specs.Leg.{no_leg, open_leg, opened};
ghost use Rattle.bay.specs.Legs.{booked, struck};
ghost use Rattle.bay.specs.Limits.{most_legs};
ghost use Rattle.bay.specs.Plain.{EndsBelow, ends};

use crate::calls::{Answer, CHAIN_BYTES, Call};
use crate::cells::Cell;
use crate::elimination::Found;
use crate::fault::BayFault;
use crate::judge::{judge_room, judge_run};
use crate::legs::{Leg, Legs, MOST_LEGS, Note};
use crate::negative_cycle::write_loop;
use crate::routes::write_routes;
use crate::sets::FormatSet;
use crate::splits::{Branches, fork_over};
use crate::substitution::solve_to;
use crate::survey::solve;
use crate::writing::RouteWriter;
use costs::Cost;
use registers::{Format, MOST_FORMATS, Register, judge_ends};

// A bay over any register.
#[derive(Drop)]
pub struct Bay<R: Register> {
    register: R,
    legs: Legs,
    // every leg's ends are formats of the register
    ghost inside: { All (EndsBelow (R.holds register).size) (map ends (booked legs)) },
}

impl<R: Register> Bay<R> {
    ghost use Rattle.bay.specs.Bays.{legs, plain};
    ghost use Rattle.bay.specs.Buffers.{buffers};
    ghost use Rattle.bay.specs.Calls.{Called, keeps_register, made};
    ghost use Rattle.bay.specs.Plain.{step, verdict};
    ghost use Rattle.bay.specs.Routing.{RouteAnswer, route_causes};
    ghost use Rattle.bay.specs.Splits.{ForkAnswer};
    ghost use Rattle.bay.specs.Runs.{AllKeepRegister, InPart, Ran, part_bytes, run_causes, takes_part};
    ghost use Rattle.bay.specs.declared.calls.Call.TheVariants.{Enter, Withdraw, Book, Strike, Show};

    // A bay with no legs.
    pub fn new(register: R) -> Bay<R>
        ensures register { result.register ≡ register }
        ensures legs { legs result ≡ [] }
    {
        Bay {
            register,
            legs: Legs::new(),
        }
    }

    // The register, with the cards that it then has.
    pub fn into_register(self) -> R
        ensures { result ≡ self.register }
    {
        let Bay { register, legs: _ } = self;
        register
    }

    // Sets a card; granted, every note becomes open.
    pub fn enter(&mut self, from: Format, to: Format, cost: R::Cost) -> Result<(), BayFault>
        ensures answer { refused result ≡ verdict (plain self.old) (Enter from to cost) }
        ensures after { plain self.new ≡ step (plain self.old) (Enter from to cost) }
        ensures notes { legs self.new
            ≡ after (refused result) (legs self.old) (opened (legs self.old)) }
    {
        self.register.enter(from, to, cost)?;
        self.legs.open_all();
        Ok(())
    }

    // Removes a card; granted, every note becomes open.
    pub fn withdraw(&mut self, from: Format, to: Format) -> Result<(), BayFault>
        ensures answer { refused result ≡ verdict (plain self.old) (Withdraw from to) }
        ensures after { plain self.new ≡ step (plain self.old) (Withdraw from to) }
        ensures notes { legs self.new
            ≡ after (refused result) (legs self.old) (opened (legs self.old)) }
    {
        self.register.withdraw(from, to)?;
        self.legs.open_all();
        Ok(())
    }

    // Puts an open leg at the end and answers its number.
    pub fn book(&mut self, from: Format, to: Format) -> Result<usize, BayFault>
        ensures answer { refused result ≡ verdict (plain self.old) (Book from to) }
        ensures number { IfOk result (λ k. k ≡ length (legs self.old)) }
        ensures after { plain self.new ≡ step (plain self.old) (Book from to) }
        ensures notes { legs self.new
            ≡ after (refused result) (legs self.old) (legs self.old ++ open_leg from to ∷ []) }
        ensures register { self.new.register ≡ self.old.register }
    {
        judge_ends(self.register.size(), from, to)?;
        let number = self.legs.len();
        if number >= MOST_LEGS {
            return Err(BayFault::LegsFull);
        }
        self.legs.push(Leg {
            from,
            to,
            note: Note::Open,
        });
        Ok(number)
    }

    // Takes one leg out; later legs move down by one.
    pub fn strike(&mut self, number: usize) -> Result<(), BayFault>
        ensures answer { refused result ≡ verdict (plain self.old) (Strike number) }
        ensures after { plain self.new ≡ step (plain self.old) (Strike number) }
        ensures notes { legs self.new
            ≡ after (refused result) (legs self.old) (struck number (legs self.old)) }
        ensures register { self.new.register ≡ self.old.register }
    {
        if number >= self.legs.len() {
            return Err(BayFault::NoLeg);
        }
        self.legs.remove(number);
        Ok(())
    }

    // One leg's ends and note.
    pub fn show(&self, number: usize) -> Result<Leg, BayFault>
        ensures answer { refused result ≡ verdict (plain self.now) (Show number) }
        ensures leg { IfOk result (λ leg. leg ≡ slice_index_or (legs self.now) number no_leg) }
    {
        self.legs.get(number).ok_or(BayFault::NoLeg)
    }

    // What is judged before a card is looked at: that there are legs, and that the table and the sheets are long enough.
    fn judge_route(
        &self,
        table: &[Cell<R::Cost>],
        costs: &[R::Cost],
        chains: &[u8],
    ) -> Result<(), BayFault>
        ensures { refused result
            ≡ first_cause (route_causes (plain self.now) (buffers table.now costs.now chains.now)) }
    {
        judge_room(
            self.legs.len(),
            self.register.size(),
            table.len(),
            costs.len(),
            chains.len(),
        )
    }

    // A chain of least cost for every leg, or a loop that undercuts the unit. Leg k has entry k of the cost sheet and row k of
    // the chain sheet; it does not matter what the table and the sheets hold. A host lends each as a slice of its own.
    pub fn route(
        &mut self,
        table: &mut [Cell<R::Cost>],
        costs: &mut [R::Cost],
        chains: &mut [u8],
    ) -> Result<usize, BayFault>
        ensures answer { let before = buffers table.old costs.old chains.old in
            let after = buffers table.new costs.new chains.new in
            RouteAnswer (plain self.old) (legs self.old) (legs self.new) before after result }
        ensures same { plain self.new ≡ plain self.old }
        ensures register { self.new.register ≡ self.old.register }
    {
        self.judge_route(table, costs, chains)?;
        let n = self.register.size();
        let mut ticks = [false; MOST_FORMATS];
        let mut there = [FormatSet::none(); MOST_FORMATS];
        let mut standing = [FormatSet::none(); MOST_FORMATS];
        match solve(&self.register, table, &mut there, &mut standing) {
            Found::LoopAt(h) => {
                write_loop(
                    &self.register,
                    table,
                    &mut there,
                    &mut standing,
                    h,
                    &mut ticks,
                    chains,
                );
                self.legs.open_all();
                Err(BayFault::Loop)
            }
            Found::NoLoop(_) => {
                let routed = self.legs.len();
                let mut writer = RouteWriter {
                    legs: &mut self.legs,
                    costs,
                    chains,
                };
                let goals = writer.goals();
                solve_to(table, &mut there, n, goals);
                write_routes(
                    &mut writer,
                    &self.register,
                    n,
                    table,
                    &there,
                    &standing,
                    goals,
                    &mut ticks,
                );
                Ok(routed)
            }
        }
    }

    // Where one input is best split over two outputs: the lowest of the formats at which the chain from the input and the chains on to
    // both outputs cost least together. These chains have rows 0 to 2 of the chain sheet, and the first entry of the cost sheet has
    // what they cost. It does not matter what the table and the sheets hold.
    pub fn fork(
        &self,
        input: Format,
        first: Format,
        second: Format,
        table: &mut [Cell<R::Cost>],
        costs: &mut [R::Cost],
        chains: &mut [u8],
    ) -> Result<Format, BayFault>
        ensures answer { let before = buffers table.old costs.old chains.old in
            let after = buffers table.new costs.new chains.new in
            let cards = (plain self.now).register in
            ForkAnswer R.Cost.Cost cards input first second before after result }
    {
        let branches = Branches {
            input,
            first,
            second,
        };
        fork_over(&self.register, branches, table, costs, chains)
    }

    // Any one call with its answer. Only a route and a fork work in the table and the sheets.
    pub fn call(
        &mut self,
        call: Call<R::Cost>,
        table: &mut [Cell<R::Cost>],
        costs: &mut [R::Cost],
        chains: &mut [u8],
    ) -> Answer
        ensures made { let before = buffers table.old costs.old chains.old in
            let after = buffers table.new costs.new chains.new in
            Called (plain self.old) (plain self.new) (legs self.old) (legs self.new)
            (made call result before after) }
        ensures register { keeps_register call ≡ true → self.new.register ≡ self.old.register }
    {
        match call {
            Call::Enter { from, to, cost } => Answer::of_done(
                self.enter(from, to, cost),
                Answer::Entered,
            ),
            Call::Withdraw { from, to } => Answer::of_done(
                self.withdraw(from, to),
                Answer::Withdrawn,
            ),
            Call::Book { from, to } => match self.book(from, to) {
                Ok(leg) => Answer::Booked(leg),
                Err(fault) => Answer::Refused(fault),
            },
            Call::Strike { leg } => Answer::of_done(self.strike(leg), Answer::Struck),
            Call::Show { leg } => match self.show(leg) {
                Ok(leg) => Answer::Shown(leg),
                Err(fault) => Answer::Refused(fault),
            },
            Call::Route => Answer::of_route(self.route(table, costs, chains)),
            Call::Fork {
                input,
                first,
                second,
            } => Answer::of_fork(self.fork(input, first, second, table, costs, chains)),
        }
    }

    // One call of a list. A route or a fork works in its part of the sheets, and any other call in no part of them.
    fn call_in_part(
        &mut self,
        call: Call<R::Cost>,
        part: usize,
        table: &mut [Cell<R::Cost>],
        costs: &mut [R::Cost],
        chains: &mut [u8],
    ) -> Answer
        requires costs { takes_part call ≡ true →
            most_legs * part + most_legs ≤ length costs.old }
        requires chains { takes_part call ≡ true →
            part_bytes * part + part_bytes ≤ length chains.old }
        ensures made { let before = buffers table.old costs.old chains.old in
            let after = buffers table.new costs.new chains.new in
            InPart (plain self.old) (plain self.new) (legs self.old) (legs self.new)
            part call result before after }
        ensures register { keeps_register call ≡ true → self.new.register ≡ self.old.register }
    {
        if !call.takes_part() {
            return self.call(call, table, &mut costs[..0], &mut chains[..0]);
        }
        let costs = &mut costs[MOST_LEGS * part..MOST_LEGS * part + MOST_LEGS];
        let chains = &mut chains[CHAIN_BYTES * part..CHAIN_BYTES * part + CHAIN_BYTES];
        self.call(call, table, costs, chains)
    }

    // A list of calls, in their order, each with its answer: call i has place i of the answers. Every answer is the plain bay's,
    // whatever came before it. Routes and forks work in the one table, and each in a part of the sheets of its own, one after the other:
    // `MOST_LEGS` cost entries, and `CHAIN_BYTES` of the chain sheet. Where the sheets or the answers are too short for that, no
    // call is made.
    pub fn run(
        &mut self,
        calls: &[Call<R::Cost>],
        answers: &mut [Answer],
        table: &mut [Cell<R::Cost>],
        costs: &mut [R::Cost],
        chains: &mut [u8],
    ) -> Result<(), BayFault>
        ensures answer { let causes = run_causes calls.now (length costs.old) (length chains.old) in
            refused result ≡ first_cause (causes (length answers.old)) }
        ensures ran { let before = buffers table.old costs.old chains.old in
            let after = buffers table.new costs.new chains.new in
            OnOk result (Ran (plain self.old) (plain self.new) (legs self.old) (legs self.new)
            calls.now answers.old answers.new before after) }
        ensures register { AllKeepRegister calls.now → self.new.register ≡ self.old.register }
        ensures refused { let before = buffers table.old costs.old chains.old in
            let after = buffers table.new costs.new chains.new in
            OnErr result ((self.new ≡ self.old) × (answers.new ≡ answers.old) × (after ≡ before)) }
    {
        judge_run(calls, answers.len(), costs.len(), chains.len())?;
        let mut part = 0;
        for (i, call) in calls.iter().enumerate() {
            answers[i] = self.call_in_part(*call, part, table, costs, chains);
            part += usize::from(call.takes_part());
        }
        Ok(())
    }
}
