//! Lines by which a client or a daemon is told to do something.

ghost use Rattle.std.specs.Prelude.{◌≡◌, ◌∷◌, [], map, IfOk};
ghost use Rattle.cx_words.specs.declared.choices.CommandForm.{CommandForm};
ghost use Rattle.cx_lines.specs.Commands.{command_form, command_places, IsCommand};
ghost use Rattle.cx_lines.specs.declared.commands.LineCommand.{LineCommand};

use crate::sending::{SEND_PLACES, send_of};
use cx_base::{Duplicate, EntityName, EntityType, Items, Operation, copy_items};
use cx_words::{CommandForm, Known, WordPlace, client, daemon, is_lossy, services};
use std::alloc::{AllocError, Global};

/// What a node is told to do.
#[derive(PartialEq, Eq, Drop)]
pub enum LineCommand {
    /// A daemon fetches the generations of its type.
    Fetch(EntityName),
    /// A client logs in and asks for tickets of these services.
    Login(EntityName, Items<EntityType>),
    /// A client that is logged in asks for tickets of these services.
    Renew(EntityName, Items<EntityType>),
    /// A client connects to a daemon; whether the session is lossy.
    Connect(EntityName, EntityName, bool),
    /// A client sends an operation to a daemon.
    Send(EntityName, EntityName, Operation),
}

impl LineCommand {
    /// The form of the command.
    pub fn form(&self) -> CommandForm
        ensures { result ≡ command_form self.now }
    {
        match self {
            LineCommand::Fetch(_) => CommandForm::Fetch,
            LineCommand::Login(_, _) => CommandForm::Login,
            LineCommand::Renew(_, _) => CommandForm::Renew,
            LineCommand::Connect(_, _, _) => CommandForm::Connect,
            LineCommand::Send(_, _, _) => CommandForm::Send,
        }
    }
}

/// The places behind the first word, where these words stand there.
pub fn command_places(form: CommandForm, words: &[&[u8]]) -> &'static [WordPlace]
    ensures { result.now ≡ command_places form (map (λ w. w.now) words.now) }
{
    match form {
        CommandForm::Fetch => &[WordPlace::Daemon],
        CommandForm::Login => login_places(words),
        CommandForm::Renew => &[WordPlace::Client, WordPlace::Services],
        CommandForm::Connect => connect_places(words),
        CommandForm::Send => &SEND_PLACES,
    }
}

fn login_places(words: &[&[u8]]) -> &'static [WordPlace]
    ensures { result.now ≡ command_places CommandForm.Login (map (λ w. w.now) words.now) }
{
    if words.len() <= 1 {
        &[WordPlace::Client]
    } else {
        &[WordPlace::Client, WordPlace::Services]
    }
}

fn connect_places(words: &[&[u8]]) -> &'static [WordPlace]
    ensures { result.now ≡ command_places CommandForm.Connect (map (λ w. w.now) words.now) }
{
    if words.len() <= 2 {
        &[WordPlace::Client, WordPlace::Daemon]
    } else {
        &[WordPlace::Client, WordPlace::Daemon, WordPlace::Lossy]
    }
}

/// The command that these words behind a first word of this form spell; none where one of them isn't good at its place.
pub fn command_of(
    alloc: Global,
    known: &Known,
    form: CommandForm,
    words: &[&[u8]],
) -> Result<Option<LineCommand>, AllocError>
    ensures { IfOk result (IsCommand known.now [] form (map (λ w. w.now) words.now)) }
{
    match form {
        CommandForm::Fetch => fetch_of(alloc, known, words),
        CommandForm::Login => login_of(alloc, known, words),
        CommandForm::Renew => renew_of(alloc, known, words),
        CommandForm::Connect => connect_of(alloc, known, words),
        CommandForm::Send => send_of(alloc, known, words),
    }
}

fn fetch_of(
    alloc: Global,
    known: &Known,
    words: &[&[u8]],
) -> Result<Option<LineCommand>, AllocError>
    ensures { IfOk result (IsCommand known.now [] CommandForm.Fetch (map (λ w. w.now) words.now)) }
{
    let [word] = words else {
        return Ok(None);
    };
    let Some(daemon) = daemon(alloc, known, word)? else {
        return Ok(None);
    };
    Ok(Some(LineCommand::Fetch(daemon)))
}

fn login_of(
    alloc: Global,
    known: &Known,
    words: &[&[u8]],
) -> Result<Option<LineCommand>, AllocError>
    ensures { IfOk result (IsCommand known.now [] CommandForm.Login (map (λ w. w.now) words.now)) }
{
    match words {
        [word] => login(alloc, known, word),
        [word, list] => login_for(alloc, known, word, list),
        _ => Ok(None),
    }
}

fn login(alloc: Global, known: &Known, word: &[u8]) -> Result<Option<LineCommand>, AllocError>
    ensures { IfOk result (IsCommand known.now [] CommandForm.Login (word.now ∷ [])) }
{
    let Some(client) = client(alloc, known, word)? else {
        return Ok(None);
    };
    Ok(Some(LineCommand::Login(client, Items::new(alloc))))
}

fn login_for(
    alloc: Global,
    known: &Known,
    word: &[u8],
    list: &[u8],
) -> Result<Option<LineCommand>, AllocError>
    ensures { IfOk result (IsCommand known.now [] CommandForm.Login (word.now ∷ list.now ∷ [])) }
{
    let Some(client) = client(alloc, known, word)? else {
        return Ok(None);
    };
    let Some(asked) = services(alloc, list)? else {
        return Ok(None);
    };
    Ok(Some(LineCommand::Login(client, asked)))
}

fn renew_of(
    alloc: Global,
    known: &Known,
    words: &[&[u8]],
) -> Result<Option<LineCommand>, AllocError>
    ensures { IfOk result (IsCommand known.now [] CommandForm.Renew (map (λ w. w.now) words.now)) }
{
    let [word, list] = words else {
        return Ok(None);
    };
    let Some(client) = client(alloc, known, word)? else {
        return Ok(None);
    };
    let Some(asked) = services(alloc, list)? else {
        return Ok(None);
    };
    Ok(Some(LineCommand::Renew(client, asked)))
}

fn connect_of(
    alloc: Global,
    known: &Known,
    words: &[&[u8]],
) -> Result<Option<LineCommand>, AllocError>
    ensures { IfOk result (IsCommand known.now [] CommandForm.Connect (map (λ w. w.now) words.now)) }
{
    match words {
        [from, to] => connect(alloc, known, from, to),
        [from, to, word] => connect_lossy(alloc, known, from, to, word),
        _ => Ok(None),
    }
}

fn connect(
    alloc: Global,
    known: &Known,
    from: &[u8],
    to: &[u8],
) -> Result<Option<LineCommand>, AllocError>
    ensures { IfOk result (IsCommand known.now [] CommandForm.Connect (from.now ∷ to.now ∷ [])) }
{
    let Some(client) = client(alloc, known, from)? else {
        return Ok(None);
    };
    let Some(daemon) = daemon(alloc, known, to)? else {
        return Ok(None);
    };
    Ok(Some(LineCommand::Connect(client, daemon, false)))
}

fn connect_lossy(
    alloc: Global,
    known: &Known,
    from: &[u8],
    to: &[u8],
    word: &[u8],
) -> Result<Option<LineCommand>, AllocError>
    ensures { IfOk result (IsCommand known.now [] CommandForm.Connect (from.now ∷ to.now ∷ word.now ∷ [])) }
{
    let Some(client) = client(alloc, known, from)? else {
        return Ok(None);
    };
    let Some(daemon) = daemon(alloc, known, to)? else {
        return Ok(None);
    };
    if !is_lossy(word) {
        return Ok(None);
    }
    Ok(Some(LineCommand::Connect(client, daemon, true)))
}

impl Duplicate for LineCommand {
    fn copy(&self, alloc: Global) -> Result<LineCommand, AllocError> {
        match self {
            LineCommand::Fetch(daemon) => copied_fetch(alloc, daemon),
            LineCommand::Login(client, asked) => copied_login(alloc, client, asked),
            LineCommand::Renew(client, asked) => copied_renew(alloc, client, asked),
            LineCommand::Connect(client, daemon, lossy) => {
                copied_connect(alloc, client, daemon, *lossy)
            }
            LineCommand::Send(client, daemon, operation) => {
                copied_send(alloc, client, daemon, operation)
            }
        }
    }
}

fn copied_fetch(alloc: Global, daemon: &EntityName) -> Result<LineCommand, AllocError>
    ensures { IfOk result (λ copied. copied ≡ LineCommand.Fetch daemon.now) }
{
    let daemon = daemon.copy(alloc)?;
    Ok(LineCommand::Fetch(daemon))
}

fn copied_login(
    alloc: Global,
    client: &EntityName,
    asked: &Items<EntityType>,
) -> Result<LineCommand, AllocError>
    ensures { IfOk result (λ copied. copied ≡ LineCommand.Login client.now asked.now) }
{
    let client = client.copy(alloc)?;
    let asked = copy_items(alloc, asked)?;
    Ok(LineCommand::Login(client, asked))
}

fn copied_renew(
    alloc: Global,
    client: &EntityName,
    asked: &Items<EntityType>,
) -> Result<LineCommand, AllocError>
    ensures { IfOk result (λ copied. copied ≡ LineCommand.Renew client.now asked.now) }
{
    let client = client.copy(alloc)?;
    let asked = copy_items(alloc, asked)?;
    Ok(LineCommand::Renew(client, asked))
}

fn copied_connect(
    alloc: Global,
    client: &EntityName,
    daemon: &EntityName,
    lossy: bool,
) -> Result<LineCommand, AllocError>
    ensures { IfOk result (λ copied. copied ≡ LineCommand.Connect client.now daemon.now lossy) }
{
    let client = client.copy(alloc)?;
    let daemon = daemon.copy(alloc)?;
    Ok(LineCommand::Connect(client, daemon, lossy))
}

fn copied_send(
    alloc: Global,
    client: &EntityName,
    daemon: &EntityName,
    operation: &Operation,
) -> Result<LineCommand, AllocError>
    ensures { IfOk result (λ copied. copied ≡ LineCommand.Send client.now daemon.now operation.now) }
{
    let client = client.copy(alloc)?;
    let daemon = daemon.copy(alloc)?;
    let operation = operation.copy(alloc)?;
    Ok(LineCommand::Send(client, daemon, operation))
}
