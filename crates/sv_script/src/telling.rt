//! Laws of the changes that a trace tells.
ghost use Rattle.sv_script.specs.Laws.{ChangesAreOfTheirTrace, ChangesAreToldAtOnce, EachChangeIsTold, LinesAreToldAtOnce, OtherEventsTellNothing};

/// Just the changes of views are told: each tells of an object of the interest, by the number of an event of the trace, and its two views
/// differ; and each event that changes the view of an object of the interest is told. Only a Make and a Got can be such events.
pub fn each_change_is_told()
    ensures only { ChangesAreOfTheirTrace }
    ensures each { EachChangeIsTold }
    ensures others { OtherEventsTellNothing }
{}

/// What a trace tells, it tells at once: later events only add lines behind.
pub fn changes_are_told_at_once()
    ensures changes { ChangesAreToldAtOnce }
    ensures lines { LinesAreToldAtOnce }
{}
