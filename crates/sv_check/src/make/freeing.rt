// What freeing makes of a chain, without code.
ghost use Rattle.sv_check.specs.Freeing.{MadeByFreeing};

/// The lists of an image that is made anew are those that freeing gives (Bach, chapter 4.7, free), where the blocks behind the
/// root's page are freed one after another, from the last one down.
pub fn made_chains_are_freed()
    ensures { MadeByFreeing }
{}
