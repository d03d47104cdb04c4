//! The forms of a journal's lines.

ghost use Rattle.std.specs.Prelude.{◌≡◌, ◌≤◌, length};
ghost use Rattle.cx_help.specs.audit.Forms.{first_of, form_of_head, form_text, is_of_head, line_form};

use cx_audit_text::{JournalHead, head_named};

/// The form of a line that begins so, with an example.
pub(crate) fn line_form(line: &[u8]) -> &'static str
    ensures { result.now ≡ line_form line.now }
{
    form_of_head(head_named(first_of(line)))
}

/// The word with which a line begins.
fn first_of(line: &[u8]) -> &[u8]
    ensures { result.now ≡ first_of line.now }
{
    &line[..first_count(line)]
}

fn first_count(line: &[u8]) -> usize
    ensures value { result ≡ length (first_of line.now) }
    ensures bound { result ≤ length line.now }
{
    line.iter().take_while(|b| is_of_head(**b)).count()
}

fn is_of_head(b: u8) -> bool
    ensures { result ≡ is_of_head b }
{
    b != b' '
}

fn form_of_head(head: Option<JournalHead>) -> &'static str
    ensures { result.now ≡ form_of_head head }
{
    match head {
        Some(head) => form_text(head),
        None => "",
    }
}

fn form_text(head: JournalHead) -> &'static str
    ensures { result.now ≡ form_text head }
{
    match head {
        JournalHead::Saved => { "; its form is: saved NEXT_GID, as in: saved 2" }
        JournalHead::Issued => {
            "; its form is: issued NUMBER ENTITY SERVICE GID GENERATION CREATED EXPIRES \"CAPS\", as in: issued 3 client.a osd 2 2 1000 4600 \"allow *\""
        }
        JournalHead::Fetched => {
            "; its form is: fetched DAEMON ASKED IDS, as in: fetched osd.0 1000 1,2,3"
        }
        JournalHead::Looked => {
            "; its form is: looked DAEMON LINK IDS ASKED, as in: looked osd.0 3 1,2,3 1000"
        }
        JournalHead::Admitted => {
            "; its form is: admitted DAEMON SESSION EPOCH COOKIE ENTITY GID AT \"CAPS\", as in: admitted osd.0 1 1 c1 client.a 2 1000 \"allow *\""
        }
        JournalHead::Resumed => {
            "; its form is: resumed DAEMON SESSION EPOCH COOKIE ENTITY GID AT \"CAPS\", as in: resumed osd.0 1 2 c1 client.a 2 1000 \"allow *\""
        }
        JournalHead::Sent => {
            "; its form is: sent CLIENT DAEMON COOKIE SEQ ACCESS POOL NAMESPACE OBJECT DATA, as in: sent client.a osd.0 c1 1 read rbd - obj1 -"
        }
        JournalHead::Handled => {
            "; its form is: handled DAEMON SESSION EPOCH COOKIE SEQ ACCESS POOL NAMESPACE OBJECT DATA OUTCOME, as in: handled osd.0 1 1 c1 1 read rbd - obj1 - done"
        }
        JournalHead::Answered => {
            "; its form is: answered CLIENT DAEMON NUMBER OUTCOME, as in: answered client.a osd.0 1 done"
        }
        JournalHead::Refused => {
            "; its form is: refused NODE LINK REASON, and what the reason takes, as in: refused client.a 3 denied 13"
        }
        JournalHead::Ended => { "; its form is: ended DAEMON SESSION, as in: ended osd.0 1" }
        JournalHead::Restarted => { "; its form is: restarted NODE, as in: restarted osd.0" }
        JournalHead::Broken => {
            "; its form is: broken PREMISE NODE KIND LINE, as in: broken draw client.b challenge 7"
        }
        JournalHead::Leaked => { "; its form is: leaked CLIENT, as in: leaked client.a" }
        JournalHead::Administered => {
            "; its form is: administered ACTOR VERB NAME AT OUTCOME, as in: administered client.admin get client.a 1000 done"
        }
    }
}
