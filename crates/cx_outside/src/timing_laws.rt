//! The law of the clock in memory.

ghost use Rattle.cx_outside.specs.timing.Readings.{ReadsInOrder};

/// Reading n of a new clock of a list, from 0, is reading n of the list, or the last one behind its end; 0 where there is none.
pub fn clock_law()
    ensures { ReadsInOrder }
{}
