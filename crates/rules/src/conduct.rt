// Laws of the rules themselves. A theorem is the promise of a function that does nothing else.
ghost use Rattle.rules.specs.Conduct.{LowRefusalsChangeNothing, RefusedStarts, FailuresAreTold, SettleEndsBusy, ResetAlwaysResets, LookChangesNothing, DeadChipsAnswer1, OnlyLandingsChangeCells, TightIsClosed, RegisterIsErasedBeyond, RegisterIsLawful, OnlyTheUnwillingFail, RowsCountLowFirst};
ghost use Rattle.rules.specs.Names.{NamesReadBack};

// Refusals 1 to 9 change nothing at all.
pub fn low_refusals_change_nothing()
    ensures { LowRefusalsChangeNothing }
{}

// After 10, 11 and 12 nothing has started, the fail bit is 1, and read gives the status.
pub fn refused_starts()
    ensures { RefusedStarts }
{}

// A call is answered 13 exactly when the array failed at it, and then the array is unchanged.
pub fn failures_are_told()
    ensures { FailuresAreTold }
{}

// On a chip that is not dead, settle in busy is answered 0 or 13; busy has ended, the fail bit says which, and read gives the status.
pub fn settle_ends_busy()
    ensures { SettleEndsBusy }
{}

// On a chip that is not dead, FFh clears the fail bit, sets the pointer to A and waits as after 00h, also where it is answered 13.
pub fn reset_always_resets()
    ensures { ResetAlwaysResets }
{}

pub fn look_changes_nothing()
    ensures { LookChangesNothing }
{}

// A dead chip answers 1 to every call, and nothing changes.
pub fn dead_chips_answer_1()
    ensures { DeadChipsAnswer1 }
{}

// Only a settle, or an FFh, on a busy chip ever changes a cell.
pub fn only_landings_change_cells()
    ensures { OnlyLandingsChangeCells }
{}

// Tight and an open range never stand together.
pub fn tight_is_closed()
    ensures { TightIsClosed }
{}

// The register keeps its 528 places, and those beyond the part's columns stay erased.
pub fn register_is_erased_beyond()
    ensures { RegisterIsErasedBeyond }
{}

// Every code of the register of a chip that was opened new is lawful.
pub fn register_is_lawful()
    ensures { RegisterIsLawful }
{}

// The array of a chip that was opened new fails only where its row or block is not willing.
pub fn only_the_unwilling_fail()
    ensures { OnlyTheUnwillingFail }
{}

// Row cycles count from the low byte up, modulo the part's rows.
pub fn rows_count_low_first()
    ensures { RowsCountLowFirst }
{}

// A part's name reads back as the part, and as no other.
pub fn names_read_back()
    ensures { NamesReadBack }
{}
