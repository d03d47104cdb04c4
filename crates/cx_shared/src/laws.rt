//! What the rule says of what threads know.

ghost use Rattle.cx_shared.specs.Lawful.{KnowsOneList, KnowsItsLook};

/// Of what two threads know under the rule, one list begins with the other. Who knows as many renewals as are counted knows the
/// view that is looked at.
pub fn sharing_laws()
    ensures one { KnowsOneList }
    ensures look { KnowsItsLook }
{}
