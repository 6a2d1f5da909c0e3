// The laws of equality. A theorem is the promise of a function that does nothing else.
ghost use Rattle.rules.specs.Equality.{LawOfCells, LawOfFailures, LogsExist, RunsExist, PagesAreLowest, AnyOrder};

// Two chips of one shape and word kind, opened new, are equal in all cells exactly when every cell has in both the same lowest level written
// since its block's last landed erase, or since new.
pub fn law_of_cells()
    ensures { LawOfCells }
{}

// Two chips of one part, opened new and alike and given one list of calls, are equal in every answer and in all cells exactly when their
// arrays failed at the same calls.
pub fn law_of_failures()
    ensures { LawOfFailures }
{}

// Every run of a chip opened new has one log, and the chip shows its lowest levels.
pub fn logs_exist()
    ensures { LogsExist }
{}

// Every list of calls has a run over every array.
pub fn runs_exist()
    ensures { RunsExist }
{}

// A page that a read fetches has in each cell the lowest level written so far.
pub fn pages_are_lowest()
    ensures { PagesAreLowest }
{}

// Programs landed in any order, and any number of times, leave the same lowest levels.
pub fn any_order()
    ensures { AnyOrder }
{}
