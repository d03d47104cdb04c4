//! The table of the commands: the word of each, what stands behind it, what it does, and an example.

ghost use Rattle.std.specs.Prelude.{◌≡◌};
ghost use Rattle.std.specs.Str.{bytes_eq};
ghost use Rattle.cx_command_line.specs.Forms.{example_text, form_of, form_values, form_word, purpose_text};

use std::fmt;

/// The form of a command. It is shown as the words of the command, of which those in capitals stand for others.
#[derive(Clone, Copy, Debug, PartialEq, Eq)]
pub enum Form {
    Replay,
    Keyring,
    Audit,
    Drill,
    Key,
    Monitor,
    Daemon,
    Client,
}

impl Form {
    /// The word that begins the command.
    pub fn word(self) -> &'static str
        ensures { result.now ≡ form_word self }
    {
        match self {
            Form::Replay => "replay",
            Form::Keyring => "keyring",
            Form::Audit => "audit",
            Form::Drill => "drill",
            Form::Key => "key",
            Form::Monitor => "mon",
            Form::Daemon => "daemon",
            Form::Client => "client",
        }
    }

    // What stands behind that word.
    fn values(self) -> &'static str
        ensures { result.now ≡ form_values self }
    {
        match self {
            Form::Replay => "",
            Form::Keyring => "",
            Form::Audit => "",
            Form::Drill => " CLIENTS SEED",
            Form::Key => "",
            Form::Monitor => " EVENTS LISTEN [LIFE AUTHLIFE]",
            Form::Daemon => " NAME EVENTS LISTEN MON",
            Form::Client => " NAME EVENTS MON [PEER ..]",
        }
    }

    // What the command does.
    fn purpose(self) -> &'static str
        ensures { result.now ≡ purpose_text self }
    {
        match self {
            Form::Replay => {
                "reads a schedule from standard input, runs it, and writes its journal to standard output, as in:"
            }
            Form::Keyring => {
                "reads a keyring from standard input, writes it in its printed form, and says who may do what where, as in:"
            }
            Form::Audit => {
                "reads a journal from standard input, and writes whether it is legal, or which line breaks which rule, as in:"
            }
            Form::Drill => {
                "runs a schedule of 1 to 1,000 clients that the seed makes, and writes five counts of its journal, as in:"
            }
            Form::Key => {
                "writes a new key, of the system's random bytes, as key = TEXT of a keyring takes it, as in:"
            }
            Form::Monitor => {
                "runs the monitor of this folder's files keyring and state, until so many events came or its script stops it, as in:"
            }
            Form::Daemon => {
                "runs a daemon of this folder's keyring, until so many events came or its script stops it, as in:"
            }
            Form::Client => {
                "runs a client of this folder's keyring by its script, from standard input, and writes its journal, as in:"
            }
        }
    }

    // An example of the command.
    fn example(self) -> &'static str
        ensures { result.now ≡ example_text self }
    {
        match self {
            Form::Replay => "cephx_cli replay < examples/first_login.schedule",
            Form::Keyring => "cephx_cli keyring < examples/keyrings/two_entities.keyring",
            Form::Audit => "cephx_cli audit < examples/first_login.journal",
            Form::Drill => "cephx_cli drill 3 0",
            Form::Key => { "printf '[client.a]\\nkey = %s\\n' \"$(cephx_cli key)\" >> keyring" }
            Form::Monitor => "cephx_cli mon 1000000 127.0.0.1:6789 < /dev/null",
            Form::Daemon => {
                "printf 'fetch osd.0\\n' | cephx_cli daemon osd.0 1000000 127.0.0.1:6800 127.0.0.1:6789"
            }
            Form::Client => {
                "printf 'login client.a osd\\nstop\\n' | cephx_cli client client.a 1000 127.0.0.1:6789"
            }
        }
    }
}

/// The form of the command that begins with this word.
pub fn form_of(word: &str) -> Option<Form>
    ensures { result ≡ form_of word.now }
{
    if is_text(word, Form::Replay.word()) {
        return Some(Form::Replay);
    }
    if is_text(word, Form::Keyring.word()) {
        return Some(Form::Keyring);
    }
    if is_text(word, Form::Audit.word()) {
        return Some(Form::Audit);
    }
    if is_text(word, Form::Drill.word()) {
        return Some(Form::Drill);
    }
    if is_text(word, Form::Key.word()) {
        return Some(Form::Key);
    }
    if is_text(word, Form::Monitor.word()) {
        return Some(Form::Monitor);
    }
    if is_text(word, Form::Daemon.word()) {
        return Some(Form::Daemon);
    }
    if is_text(word, Form::Client.word()) {
        return Some(Form::Client);
    }
    None
}

/// Whether the word is this text.
pub(crate) fn is_text(word: &str, text: &str) -> bool
    ensures { result ≡ bytes_eq word.now text.now }
{
    word.as_bytes() == text.as_bytes()
}

impl fmt::Display for Form {
    ghost use Rattle.std.specs.Prelude.{Some};
    ghost use Rattle.cx_command_line.specs.Forms.{words_text};

    ghost output = { λ form. Some (words_text form) };

    fn fmt<W: fmt::Write>(&self, f: &mut fmt::Formatter<W>) -> fmt::Result {
        write!(f, "{}{}", self.word(), self.values())
    }
}

/// The words that begin a command, as a list.
#[derive(Clone, Copy)]
pub struct Commands;

impl fmt::Display for Commands {
    ghost use Rattle.std.specs.Prelude.{Some};
    ghost use Rattle.cx_command_line.specs.Forms.{commands_text};

    ghost output = { λ commands. Some commands_text };

    fn fmt<W: fmt::Write>(&self, f: &mut fmt::Formatter<W>) -> fmt::Result {
        write!(
            f,
            "{}, {}, {}, {}, {}, {}, {} and {}",
            Form::Replay.word(),
            Form::Keyring.word(),
            Form::Audit.word(),
            Form::Drill.word(),
            Form::Key.word(),
            Form::Monitor.word(),
            Form::Daemon.word(),
            Form::Client.word()
        )
    }
}

/// The commands, what each does, and examples.
#[derive(Clone, Copy)]
pub struct Help;

impl fmt::Display for Help {
    ghost use Rattle.std.specs.Prelude.{Some};
    ghost use Rattle.cx_command_line.specs.Forms.{help_text};

    ghost output = { λ help. Some help_text };

    fn fmt<W: fmt::Write>(&self, f: &mut fmt::Formatter<W>) -> fmt::Result {
        write!(
            f,
            "the commands are:\n\n{}{}{}{}{}{}{}{}{}",
            FormHelp(Form::Replay),
            FormHelp(Form::Keyring),
            FormHelp(Form::Audit),
            FormHelp(Form::Drill),
            FormHelp(Form::Key),
            FormHelp(Form::Monitor),
            FormHelp(Form::Daemon),
            FormHelp(Form::Client),
            Guide
        )
    }
}

/// A command, what it does, and an example.
#[derive(Clone, Copy)]
pub struct FormHelp(pub Form);

impl fmt::Display for FormHelp {
    ghost use Rattle.std.specs.Prelude.{Some};
    ghost use Rattle.cx_command_line.specs.Forms.{form_help};

    ghost output = { λ help. Some (form_help help.0) };

    fn fmt<W: fmt::Write>(&self, f: &mut fmt::Formatter<W>) -> fmt::Result {
        write!(
            f,
            "  cephx_cli {}\n      {}\n      {}\n\n",
            self.0,
            self.0.purpose(),
            self.0.example()
        )
    }
}

/// Where more is told.
#[derive(Clone, Copy)]
pub struct Guide;

impl fmt::Display for Guide {
    ghost use Rattle.std.specs.Prelude.{Some};
    ghost use Rattle.cx_command_line.specs.Forms.{guide_text};

    ghost output = { λ guide. Some guide_text };

    fn fmt<W: fmt::Write>(&self, f: &mut fmt::Formatter<W>) -> fmt::Result {
        write!(
            f,
            "man/cephx_cli.1 says what each word is; docs/guide.md says what the lines of a schedule, of a script, of a journal and \
            of a keyring mean"
        )
    }
}
