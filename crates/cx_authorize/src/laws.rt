//! The laws of both sides.

ghost use Rattle.cx_authorize.specs.Agreement.{IsAccepted, AnswersChallenge, TakesReply, IsTheVerdict, AnswersWhatOpens, AgreesOnWhatOpens};

/// A client that holds what the key server issued, and a daemon whose view has that generation, agree before the ticket expires:
/// neither refuses the other, and both have one secret. What the functions of both sides give is what sealed bytes open to: there is
/// one verdict on an authorizer, and it is the one that is judged.
pub fn authorizer_laws()
    ensures accepted { IsAccepted }
    ensures answered { AnswersChallenge }
    ensures agreed { TakesReply }
    ensures verdict { IsTheVerdict }
    ensures answers { AnswersWhatOpens }
    ensures agrees { AgreesOnWhatOpens }
{}
