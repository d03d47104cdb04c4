//! The law of draws in memory.

ghost use Rattle.cx_dice.specs.Rolls.{AreSeedDraws};

/// Draw i of a seed, from 0, is words 96 i to 96 i + 95 of ChaCha20 under that seed.
pub fn draw_laws()
    ensures { AreSeedDraws }
{}
