//! What a ticket means. The definitions are in specs/; the functions here stand for theorems about them.

#![tactic(auto)]

ghost use Rattle.meaning.specs.FaultCases.{FaultCases};
ghost use Rattle.meaning.specs.Laws.{ChangesOnlyWhatItWrites, DependsOnlyOnWhatItReads, WithoutAClashTheyCommute, RefusedCallsTouchNothing, RenderingOnlyAdds, TicketsAreWhole};
ghost use Rattle.meaning.specs.MoreCases.{MoreCases};
ghost use Rattle.meaning.specs.ObjectCases.{ObjectCases};
ghost use Rattle.meaning.specs.Order.{OrderFree};
ghost use Rattle.meaning.specs.PageCases.{PageCases};
ghost use Rattle.meaning.specs.Reading.{StepsAgree, RowsAgree, ReadAgainIsThere};
ghost use Rattle.meaning.specs.Worked.{WorkedCases};

/// Calls may be made in any order that keeps the order of those that clash.
pub fn order_stands()
    ensures order { OrderFree }
{}

/// Small templates give what a reader works out for them.
pub fn worked_cases_stand()
    ensures cases { WorkedCases }
    ensures faults { FaultCases }
    ensures pages { PageCases }
    ensures more { MoreCases }
    ensures objects { ObjectCases }
{}

/// What a call reads and writes says all about what it depends on and changes.
pub fn sharing_stands()
    ensures changes { ChangesOnlyWhatItWrites }
    ensures depends { DependsOnlyOnWhatItReads }
    ensures commute { WithoutAClashTheyCommute }
    ensures refused { RefusedCallsTouchNothing }
{}

/// Text is only added, and never passes the buffer.
pub fn text_stands()
    ensures adds { RenderingOnlyAdds }
    ensures whole { TicketsAreWhole }
{}

/// A held array, object or pair is the value of its records.
pub fn reading_stands()
    ensures steps { StepsAgree }
    ensures rows { RowsAgree }
    ensures again { ReadAgainIsThere }
{}
