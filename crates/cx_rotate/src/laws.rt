//! Laws of rotation, which crates above may rest on.

ghost use Rattle.cx_rotate.specs.Lawful.{HasOneResult, HasResult, StandsCurrent, KeepsPace, IsNeverFull, StaysLasting};

/// Rotation has exactly one result; behind it the second generation is unexpired, and generations that began with none
/// never reach the bounds while the clock doesn't go back. Generations that can be kept are rotated to such ones.
pub fn rotation_laws()
    ensures determined { HasOneResult }
    ensures computed { HasResult }
    ensures current { StandsCurrent }
    ensures paced { KeepsPace }
    ensures never_full { IsNeverFull }
    ensures lasting { StaysLasting }
{}
