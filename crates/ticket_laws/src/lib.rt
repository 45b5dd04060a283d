// What holds of the answers to tickets.
#![tactic(auto)]

ghost use Rattle.ticket_laws.specs.Verdict.{OneFirstLine, OneVerdict};
ghost use Rattle.ticket_laws.specs.Whole.{GrantedIsWhole};

use ticket::TicketCost;

// Does nothing; its contract is that no text has two answers, of whatever kind it is.
pub fn one_verdict<C: TicketCost>()
    ensures first_line { OneFirstLine }
    ensures verdict { OneVerdict C.Cost C.reads }
{}

// Does nothing; its contract says in the words of the grammar what a granted ticket is, and what was found for its legs.
pub fn granted_is_whole<C: TicketCost>()
    ensures { GrantedIsWhole C.Cost C.reads }
{}
