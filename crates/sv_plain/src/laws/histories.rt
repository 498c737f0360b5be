// What holds of histories, without code.
ghost use Rattle.sv_plain.specs.HistoryLaws.{LeadsFurther, LeadsKeepSizes, LeadsLegally, OwnsFurther};

/// What leads from a state to another is legal there: also past a purge that came late, which leaves fewer nodes than the
/// state with which a legal history goes on.
pub fn histories_lead_legally()
    ensures { LeadsLegally }
{}

/// No step changes the sizes of a file system, or how many data blocks, inodes and places it has.
pub fn histories_keep_sizes()
    ensures { LeadsKeepSizes }
{}

/// One entry more leads one step further, and is its own process's alone.
pub fn histories_grow()
    ensures leads { LeadsFurther }
    ensures own { OwnsFurther }
{}
