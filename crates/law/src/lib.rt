// The law of the day: what any run of calls on a newly opened day and its keeper leaves, in the words of the trace, the records and the covers.
// Knows the calls by their promises, and nothing of how a message is written or how a call works inside.

#![tactic(auto)]

ghost use Rattle.law.specs.Laws.{LawOfTheDay, SameMorning};

// Wherever calls lead from an opening, the morning's settlement was the one that the covers admit, nothing is lost and nothing made up.
pub fn law_stands()
    ensures { LawOfTheDay }
{}

// Which short house a keeper names, where several are short, makes no difference to what the morning settles.
pub fn same_morning_stands()
    ensures { SameMorning }
{}
