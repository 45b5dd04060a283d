// The causes that every register judges first, and a bay of a leg's ends.
ghost use Rattle.std.specs.Prelude.{◌≡◌, ◌&&◌, is_ok, nat_lt};
ghost use Rattle.costs.specs.Kind.{admits};
ghost use Rattle.registers.specs.Ends.{ends_refusal};
ghost use Rattle.registers.specs.Fault.{first_cause, refusal};
ghost use Rattle.registers.specs.Meaning.{end_causes, entry_causes, pair_causes, possible};
ghost use Rattle.registers.specs.declared.fault.Layer.{Layer};

use crate::{EndsFault, Format, RegisterFault};
use costs::Cost;

// Two formats below `size`, or the first cause why not, whichever layer tells it.
pub fn judge_ends(size: usize, from: Format, to: Format) -> Result<(), EndsFault>
    ensures fine { is_ok result ≡ (nat_lt from size && nat_lt to size) }
    ensures told { (l : Layer) → ends_refusal l result ≡ first_cause (end_causes l size from to) }
{
    if from >= size {
        Err(EndsFault::FromOutside)
    } else if to >= size {
        Err(EndsFault::ToOutside)
    } else {
        Ok(())
    }
}

// Two formats that a card can lead between, or the first cause why not.
pub fn judge_pair(size: usize, from: Format, to: Format) -> Result<(), RegisterFault>
    ensures fine { is_ok result ≡ possible size from to }
    ensures told { refusal result ≡ first_cause (pair_causes size from to) }
{
    judge_ends(size, from, to)?;
    if from == to {
        Err(RegisterFault::SameEnds)
    } else {
        Ok(())
    }
}

// Ends and a cost that a card can have, or the first cause why not.
pub fn judge_entry<C: Cost>(
    size: usize,
    from: Format,
    to: Format,
    cost: C,
) -> Result<(), RegisterFault>
    ensures fine { is_ok result ≡ (possible size from to && admits C.Cost cost) }
    ensures told { refusal result ≡ first_cause (entry_causes size from to (admits C.Cost cost)) }
{
    judge_pair(size, from, to)?;
    if cost.admitted() {
        Ok(())
    } else {
        Err(RegisterFault::CostNotAdmitted)
    }
}
