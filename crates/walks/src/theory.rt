// What holds of walks over any cards, for every cost kind.
ghost use Rattle.walks.specs.Theorems.{CutToChain, FoldStep, LeastIsNear, LookFinds, NoHiddenLoop, TreeReaches, UnitIsLeast};

use costs::Cost;

// Does nothing; its contract is the theory that the search rests on.
pub fn theorems<C: Cost>()
    ensures fold_step { FoldStep C.algebra }
    ensures look_finds { LookFinds C.algebra }
    ensures no_hidden_loop { NoHiddenLoop C.algebra }
    ensures cut_to_chain { CutToChain C.algebra }
    ensures unit_is_least { UnitIsLeast C.algebra }
    ensures least_is_near { LeastIsNear C.algebra }
    ensures tree_reaches { TreeReaches C.algebra }
{}
