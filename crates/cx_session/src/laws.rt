//! Laws of a book, which crates above may rest on.

ghost use Rattle.cx_session.specs.Lawful.{GivesNumbersOnce, NeverWants, NeverFalls, TakesTheNext, KeepsOwner};
ghost use Rattle.cx_session.specs.Told.{AnswersAsTold, ChangesAsTold};

use cx_base::Owner;

/// Over any row of calls: no number is given twice, the definition answers none by want of memory, no call takes a session's
/// last message back, a message that is taken is the one behind the last, and a session that is resumed stays its entity's,
/// under its global id.
pub fn book_laws<O: Owner>()
    ensures numbers { GivesNumbersOnce O.entity_of O.gid_of }
    ensures memory { NeverWants O.entity_of O.gid_of }
    ensures last { NeverFalls O.entity_of O.gid_of }
    ensures next { TakesTheNext O.entity_of O.gid_of }
    ensures owner { KeepsOwner O.entity_of O.gid_of }
{}

/// A book of what its owners tell is answered and changed as the book is: so the history of a shared book holds plain data.
pub fn told_laws<O: Owner>()
    ensures answers { AnswersAsTold O.entity_of O.gid_of O.caps_of O.reading_of }
    ensures changes { ChangesAsTold O.entity_of O.gid_of O.caps_of O.reading_of }
{}
