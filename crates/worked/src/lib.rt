// Worked cases, as one statement about the definitions: walks, least costs and what routes and forks are answered over a few small sets
// of cards and over the house table, and the sample ticket.
#![tactic(auto)]

ghost use Rattle.worked.specs.Cases.{AllCases};

// Does nothing; its contract is that they hold.
pub fn worked_cases()
    ensures { AllCases }
{}
