//! What else a file may be, told by the word that begins a line which is none of it.

ghost use Rattle.std.specs.Prelude.{◌≡◌};
ghost use Rattle.cx_help.specs.line.Kin.{is_client_line, is_daemon_line, is_early_entry, is_head_word, is_journal_word, is_keyring_line, is_late_entry, is_script_line, is_step_word, is_word, kin_text, or_kin};

use crate::words::front;
use cx_words::Shown;

/// What is said of a line that begins with this word, where nothing else is: what has such lines.
pub fn or_kin(beside: &'static str, shown: &Shown) -> &'static str
    ensures { result.now ≡ or_kin beside.now shown.now }
{
    match beside.as_bytes() {
        [] => kin(shown),
        [..] => beside,
    }
}

fn kin(shown: &Shown) -> &'static str
    ensures { result.now ≡ kin_text shown.now }
{
    if is_journal_word(shown) {
        return " (this looks like a journal, which cephx_cli audit reads)";
    }
    if is_head_word(shown) || is_step_word(shown) {
        return " (a schedule has such lines, which cephx_cli replay reads)";
    }
    if is_client_line(shown) {
        return " (a client's script has such lines, which cephx_cli client reads)";
    }
    if is_daemon_line(shown) {
        return " (a daemon's script has such lines, which cephx_cli daemon reads)";
    }
    if is_script_line(shown) {
        return " (a node's script has such lines, which cephx_cli mon, daemon and client read)";
    }
    if is_keyring_line(shown) {
        return " (this looks like a keyring, which cephx_cli keyring reads)";
    }
    ""
}

fn is_word(shown: &Shown, text: &str) -> bool
    ensures { result ≡ is_word text.now shown.now }
{
    front(shown) == text.as_bytes()
}

/// What begins a line of a journal.
fn is_journal_word(shown: &Shown) -> bool
    ensures { result ≡ is_journal_word shown.now }
{
    is_early_entry(shown) || is_late_entry(shown)
}

fn is_early_entry(shown: &Shown) -> bool
    ensures { result ≡ is_early_entry shown.now }
{
    is_word(shown, "saved")
        || is_word(shown, "issued")
        || is_word(shown, "fetched")
        || is_word(shown, "looked")
        || is_word(shown, "admitted")
        || is_word(shown, "resumed")
        || is_word(shown, "sent")
}

fn is_late_entry(shown: &Shown) -> bool
    ensures { result ≡ is_late_entry shown.now }
{
    is_word(shown, "handled")
        || is_word(shown, "answered")
        || is_word(shown, "refused")
        || is_word(shown, "ended")
        || is_word(shown, "restarted")
        || is_word(shown, "broken")
        || is_word(shown, "leaked")
        || is_word(shown, "administered")
}

/// What begins a line of a schedule alone: one of its head, or another one.
fn is_head_word(shown: &Shown) -> bool
    ensures { result ≡ is_head_word shown.now }
{
    is_word(shown, "lifetime")
        || is_word(shown, "auth-lifetime")
        || is_word(shown, "entity")
        || is_word(shown, "seed")
        || is_word(shown, "modes")
        || is_word(shown, "leak")
}

fn is_step_word(shown: &Shown) -> bool
    ensures { result ≡ is_step_word shown.now }
{
    is_word(shown, "clock")
        || is_word(shown, "tick")
        || is_word(shown, "do")
        || is_word(shown, "carry")
        || is_word(shown, "lose")
        || is_word(shown, "inject")
        || is_word(shown, "again")
        || is_word(shown, "cut")
        || is_word(shown, "restart")
        || is_word(shown, "failsave")
        || is_word(shown, "settle")
}

/// What begins a line of a client's script, and of a daemon's.
fn is_client_line(shown: &Shown) -> bool
    ensures { result ≡ is_client_line shown.now }
{
    is_word(shown, "login")
        || is_word(shown, "renew")
        || is_word(shown, "connect")
        || is_word(shown, "send")
}

fn is_daemon_line(shown: &Shown) -> bool
    ensures { result ≡ is_daemon_line shown.now }
{
    is_word(shown, "fetch") || is_word(shown, "drop")
}

/// What begins a line of any script.
fn is_script_line(shown: &Shown) -> bool
    ensures { result ≡ is_script_line shown.now }
{
    is_word(shown, "gone") || is_word(shown, "stop")
}

/// What begins a line of a keyring.
fn is_keyring_line(shown: &Shown) -> bool
    ensures { result ≡ is_keyring_line shown.now }
{
    is_word(shown, "key") || is_word(shown, "caps")
}
