//! What holds of every generated text.
ghost use Rattle.nest_gen.specs.Laws.{AlwaysReads};

/// Each text of a seed, a shape and a size from 1 to 256 reads as a file.
pub fn always_reads()
    ensures { AlwaysReads }
{}
