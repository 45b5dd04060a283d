// A register over another one. There is one such register for all, and a view says what is seen of the one below.
ghost use Rattle.std.specs.Prelude.{◌≡◌, ℕ, Bool, true, is_some};
ghost use Rattle.registers.specs.Fault.{after, first_cause, refusal};
ghost use Rattle.registers.specs.Meaning.{entered, enter_causes, entry_causes, meant, pair_causes, withdrawn, withdraw_causes};
ghost use Rattle.registers.specs.View.{pair_below, viewed};
ghost use Rattle.costs.specs.Kind.{admits};

use crate::judge::{judge_entry, judge_pair};
use crate::{Format, Register, RegisterFault};
use costs::Cost;

// What is seen of a register: which pairs are out of use, and whether every card is turned round.
pub trait View {
    ghost shuts: { Self → ℕ → ℕ → Bool };

    ghost turned: { Self → Bool };

    // Whether a pair is out of use.
    fn shuts(&self, from: Format, to: Format) -> bool
        ensures { result ≡ shuts self.now from to };

    // The pair of the register below that a pair stands for.
    fn pair_below(&self, from: Format, to: Format) -> (Format, Format)
        ensures { result ≡ pair_below (turned self.now) from to };
}

// The register below, as it is seen through a view. It is a register too, so it may stand anywhere in a pile.
#[derive(Drop)]
pub struct Over<R, V> {
    below: R,
    view: V,
}

impl<R, V: Drop> Over<R, V> {
    // The register seen through the view.
    pub fn new(below: R, view: V) -> Over<R, V>
        ensures below { result.below ≡ below }
        ensures view { result.view ≡ view }
    {
        Over { below, view }
    }

    // The register below, as it now is.
    pub fn into_below(self) -> R
        ensures { result ≡ self.below }
    {
        let Over { below, view: _ } = self;
        below
    }
}

// Enter and withdraw say besides what is then below, which the view may hide: a refused call leaves there what was there, and
// one for a pair that is out of use never comes there. The ends are judged here, in the caller's order: turned round, a fault
// would name the other part. `card` need not judge them: a pair that no card can have is none below either.
impl<R: Register, V: View> Register for Over<R, V> {
    ghost use Rattle.registers.specs.Over.{shown};

    type Cost = R::Cost;

    ghost holds = { shown R.Register V.View };

    fn size(&self) -> usize {
        self.below.size()
    }

    fn card(&self, from: Format, to: Format) -> Option<R::Cost> {
        if self.view.shuts(from, to) {
            return None;
        }
        let (from, to) = self.view.pair_below(from, to);
        self.below.card(from, to)
    }

    fn enter(&mut self, from: Format, to: Format, cost: R::Cost) -> Result<(), RegisterFault>
        ensures answer { let m = meant R.Cost.Cost (shown R.Register V.View self.old) in
            refusal result ≡ first_cause (enter_causes m from to (admits R.Cost.Cost cost)) }
        ensures judged { let n = (R.holds self.old.below).size in
            is_some (first_cause (entry_causes n from to (admits R.Cost.Cost cost))) ≡ true →
            self.new.below ≡ self.old.below }
        ensures spared { V.shuts self.old.view from to ≡ true → self.new.below ≡ self.old.below }
        ensures below { let pair = pair_below (V.turned self.old.view) from to in
            let m = meant R.Cost.Cost (R.holds self.old.below) in
            meant R.Cost.Cost (R.holds self.new.below)
            ≡ after (refusal result) m (entered m pair.0 pair.1 (R.Cost.value cost)) }
        ensures after { let m = meant R.Cost.Cost (shown R.Register V.View self.old) in
            meant R.Cost.Cost (shown R.Register V.View self.new)
            ≡ after (refusal result) m (entered m from to (R.Cost.value cost)) }
        ensures view { self.new.view ≡ self.old.view }
    {
        judge_entry(self.below.size(), from, to, cost)?;
        if self.view.shuts(from, to) {
            return Err(RegisterFault::Sealed);
        }
        let (from, to) = self.view.pair_below(from, to);
        self.below.enter(from, to, cost)
    }

    fn withdraw(&mut self, from: Format, to: Format) -> Result<(), RegisterFault>
        ensures answer { let m = meant R.Cost.Cost (shown R.Register V.View self.old) in
            refusal result ≡ first_cause (withdraw_causes m from to) }
        ensures judged { let n = (R.holds self.old.below).size in
            is_some (first_cause (pair_causes n from to)) ≡ true → self.new.below ≡ self.old.below }
        ensures spared { V.shuts self.old.view from to ≡ true → self.new.below ≡ self.old.below }
        ensures below { let pair = pair_below (V.turned self.old.view) from to in
            let m = meant R.Cost.Cost (R.holds self.old.below) in
            meant R.Cost.Cost (R.holds self.new.below)
            ≡ after (refusal result) m (withdrawn m pair.0 pair.1) }
        ensures after { let m = meant R.Cost.Cost (shown R.Register V.View self.old) in
            meant R.Cost.Cost (shown R.Register V.View self.new)
            ≡ after (refusal result) m (withdrawn m from to) }
        ensures view { self.new.view ≡ self.old.view }
    {
        judge_pair(self.below.size(), from, to)?;
        if self.view.shuts(from, to) {
            return Err(RegisterFault::Sealed);
        }
        let (from, to) = self.view.pair_below(from, to);
        self.below.withdraw(from, to)
    }
}
