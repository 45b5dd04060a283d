// Cost kinds: what a converter card may cost, how costs combine along a chain, and which cost is better.
// Everything above this crate is written once, for every type that implements `Cost`.
#![tactic(auto)]

mod delay;
mod depth;
mod pair;

ghost use Rattle.std.specs.Prelude.{◌≡◌, true, false};
ghost use Rattle.costs.specs.Algebra.{Algebra, Lawful, IsJoin};
ghost use Rattle.costs.specs.Strict.{Strict, Tells};

pub use delay::Delay;
pub use depth::Depth;
pub use pair::Pair;

// A cost kind. Its contracts speak of what a held cost means, by `value`.
pub trait Cost: Copy {
    ghost algebra: { Algebra };

    ghost value: { Self → algebra.Value };

    // The cost that changes nothing.
    fn unit() -> Self
        ensures { value result ≡ algebra.unit };

    // The combination: exact while the two lie within `reach` cards together, and any cost beyond that.
    fn join(self, other: Self) -> Self
        ensures { IsJoin algebra (value self) (value other) (value result) };

    // Whether `self` is strictly better than `other`. No `Ord`: which of two costs is better is the kind's own affair, as the larger
    // depth is.
    fn undercuts(self, other: Self) -> bool
        ensures yes { result ≡ true → algebra.Under (value self) (value other) }
        ensures never { result ≡ false → algebra.Under (value self) (value other) → ⊥ };

    // Whether a card may have this cost.
    fn admitted(self) -> bool
        ensures { result ≡ algebra.admits (value self) };

    // What each kind proves of its meaning.
    ghost lawful: { Lawful algebra };
}

// A cost kind in which undercutting stays strict when both sides are combined with the same cost. Its order has a meaning and laws of
// its own, and says of two costs what the kind says.
pub trait StrictCost: Cost {
    ghost order: { Algebra };

    ghost place: { Self → order.Value };

    // Whether `self` comes strictly before `other`, which is whether it undercuts it.
    fn precedes(self, other: Self) -> bool
        ensures before { Tells result (order.Under (place self) (place other)) }
        ensures agrees { Tells result (Self.algebra.Under (Self.value self) (Self.value other)) };

    ghost ordered: { Lawful order };

    ghost strict: { Strict Self.algebra };
}

#[cfg(test)]
mod tests;
