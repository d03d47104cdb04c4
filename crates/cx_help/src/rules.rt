//! What each rule of a journal says.

ghost use Rattle.std.specs.Prelude.{◌≡◌};
ghost use Rattle.cx_help.specs.audit.Rules.{rule_sentence};

use cx_audit::Rule;

/// The rule in plain words.
pub fn rule_sentence(rule: Rule) -> &'static str
    ensures { result.now ≡ rule_sentence rule }
{
    match rule {
        Rule::Backed => {
            "a session is admitted or resumed only on a ticket that was issued above for the same entity, global id, caps and service, and only before it expires"
        }
        Rule::InSession => {
            "an operation is handled only in a session that the daemon admitted or resumed above with this number, epoch and cookie, and that nothing ended since"
        }
        Rule::KeepsKeys => {
            "a daemon says that it lacks the generation of an issued ticket, or that the ticket does not open under it, only where its last look on that link does not list that generation"
        }
        Rule::PrefixOfSent => {
            "what is handled under a cookie for an entity is what that entity sent under it above, in order, each operation once"
        }
        Rule::GidOnce => {
            "a global id is given to one entity alone, and a login is given an older one only while an AUTH ticket with it is unexpired"
        }
    }
}
