//! Laws over all sealed records.

ghost use Rattle.cx_sealed.specs.Kinds.{SpellsOne, IsNoProof};

/// The kind byte tells the records apart.
pub fn record_laws()
    // No content spells two records of different kinds, nor two values of one.
    ensures one { SpellsOne }
    // No content of a record has 16 bytes, as that of a login's proof has.
    ensures no_proof { IsNoProof }
{}
