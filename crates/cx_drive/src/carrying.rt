//! What a step gives, carried out: saved first, then sent.

ghost use Rattle.std.specs.Prelude.{◌≡◌, ◌+◌, ◌≤◌, ◌<◌, ◌++◌, ◌∷◌, [], Some, IfOk, IfErr, IfSome, OnOk, length, vec_len, vec_capacity};
ghost use Rattle.std.specs.VecDeque.{deque_len, deque_capacity};
ghost use Rattle.cx_drive.specs.Steps.{address_of, gone_dues, is_gone, lost_acts, open_act, open_due, opening, saved_acts, send_act, sending, shut_acts, with_send};
ghost use Rattle.cx_drive.specs.Stops.{Carried, GivesUp, HandedOut, Opens, Sends};
ghost use Rattle.cx_rotate.specs.Keeping.{IsKeptState};

use crate::dues::Due;
use crate::peers::Peers;
use crate::stops::Stop;
use cx_base::Duplicate;
use cx_keep::CommitRefusal;
use cx_outside::Site;
use cx_rotate::KeptState;
use cx_steps::{Effects, Peer, Piece};
use std::alloc::{AllocError, Global};
use std::collections::VecDeque;

/// All that a step gives is carried out: it is saved first, then sent, then links are opened, then shut; and what is due of it stands behind
/// what is due already. Behind a save that failed nothing is done. Memory is wanted before the save alone.
pub(crate) fn carry<S: Site>(
    alloc: Global,
    site: &mut S,
    peers: &Peers,
    out: &Effects,
    dues: &mut VecDeque<Due>,
) -> Result<(), Stop>
    requires { IfSome out.now.save IsKeptState }
    ensures ok { OnOk result (Carried S.follows peers.now out.now site.old site.new dues.old.items dues.new.items) }
    ensures err { IfErr result (GivesUp S.follows out.now.save site.old site.new) }
{
    let Ok(room) = room_for(alloc, out, dues) else {
        return Err(Stop::Memory);
    };
    save(alloc, site, out)?;
    hand_out(site, peers, out, room, dues);
    Ok(())
}

// ---- what is taken before the save

// The memory that a step takes behind its save: for the links that are gone since, and the peers to which it opens links.
#[derive(Drop)]
struct Room {
    gone: Vec<u32>,
    asked: VecDeque<Peer>,
}

// Takes all memory that is wanted behind the save, also for what will be due.
fn room_for(alloc: Global, out: &Effects, dues: &mut VecDeque<Due>) -> Result<Room, AllocError>
    ensures gone { IfOk result (λ room. (room.gone.items ≡ []) × (vec_len room.gone ≡ 0) × (length out.now.sends ≤ vec_capacity room.gone)) }
    ensures asked { IfOk result (λ room. room.asked.items ≡ out.now.opens) }
    ensures same { dues.new.items ≡ dues.old.items }
    ensures dues { IfOk result (λ room. deque_len dues.new + (length out.now.sends + deque_len room.asked) ≤ deque_capacity dues.new) }
{
    let sends = out.sends.all().len();
    let opens = out.opens.all().len();
    let gone = Vec::with_capacity(alloc, sends)?;
    let asked = copies(alloc, out.opens.all())?;
    dues.reserve(sends + opens)?;
    Ok(Room { gone, asked })
}

// Each of these peers once more.
fn copies(alloc: Global, peers: &[Peer]) -> Result<VecDeque<Peer>, AllocError>
    ensures items { IfOk result (λ copied. copied.items ≡ peers.now) }
    ensures len { IfOk result (λ copied. deque_len copied ≡ length peers.now) }
{
    let mut copied = VecDeque::with_capacity(alloc, peers.len())?;
    for peer in peers {
        copied.push_back_reserved(peer.copy(alloc)?);
    }
    Ok(copied)
}

// ---- the save

fn save<S: Site>(alloc: Global, site: &mut S, out: &Effects) -> Result<(), Stop>
    requires { IfSome out.now.save IsKeptState }
    ensures ok { OnOk result (S.follows site.old site.new (saved_acts out.now.save)) }
    ensures err { IfErr result (GivesUp S.follows out.now.save site.old site.new) }
{
    match &out.save {
        Some(state) => save_state(alloc, site, state.state()),
        None => Ok(()),
    }
}

fn save_state<S: Site>(alloc: Global, site: &mut S, state: &KeptState) -> Result<(), Stop>
    requires { IsKeptState state.now }
    ensures ok { OnOk result (S.follows site.old site.new (saved_acts (Some state.now))) }
    ensures err { IfErr result (GivesUp S.follows (Some state.now) site.old site.new) }
{
    match site.save(alloc, state) {
        Ok(()) => Ok(()),
        Err(CommitRefusal::KeepFault) => Err(Stop::Keeper),
        Err(CommitRefusal::OutOfMemory) => Err(Stop::Memory),
    }
}

// ---- all of a step behind its save

fn hand_out<S: Site>(
    site: &mut S,
    peers: &Peers,
    out: &Effects,
    room: Room,
    dues: &mut VecDeque<Due>,
)
    requires gone { (room.gone.items ≡ []) × (vec_len room.gone ≡ 0) × (length out.now.sends ≤ vec_capacity room.gone) }
    requires asked { room.asked.items ≡ out.now.opens }
    requires dues { deque_len dues.old + (length out.now.sends + deque_len room.asked) ≤ deque_capacity dues.old }
    ensures { HandedOut S.follows peers.now out.now site.old site.new dues.old.items dues.new.items }
{
    let Room { gone, asked } = room;
    let mut gone = gone;
    let mut asked = asked;
    send(site, out.sends.all(), &mut gone);
    note_gone(gone.as_slice(), dues);
    open(site, peers, &mut asked, dues);
    shut(site, out.shuts.all());
    lose(site, out.lost);
}

// ---- sends

// Behind a send that failed nothing more is sent on its link, and the link is gone.
fn send<S: Site>(site: &mut S, pieces: &[Piece], gone: &mut Vec<u32>)
    requires none { gone.old.items ≡ [] }
    requires empty { vec_len gone.old ≡ 0 }
    requires room { length pieces.now ≤ vec_capacity gone.old }
    ensures sent { Sends S.follows pieces.now site.old site.new gone.new.items }
    ensures len { vec_len gone.new ≤ length pieces.now }
{
    for piece in pieces {
        send_piece(site, piece, gone);
    }
}

// Sends one piece, and tells whether that went well.
fn send_piece<S: Site>(site: &mut S, piece: &Piece, gone: &mut Vec<u32>) -> bool
    requires { vec_len gone.old < vec_capacity gone.old }
    ensures acts { S.follows site.old site.new (send_act (is_gone gone.old.items piece.now.link) (sending piece.now result)) }
    ensures gone { gone.new.items ≡ with_send (is_gone gone.old.items piece.now.link) gone.old.items (sending piece.now result) }
    ensures len { vec_len gone.new ≤ vec_len gone.old + 1 }
    ensures capacity { vec_capacity gone.new ≡ vec_capacity gone.old }
{
    if is_gone(gone.as_slice(), piece.link) {
        return true;
    }
    match site.send(piece.link, piece.bytes.bytes()) {
        Ok(()) => true,
        Err(_) => {
            gone.push_reserved(piece.link);
            false
        }
    }
}

// Whether the link is among those that are gone.
fn is_gone(gone: &[u32], link: u32) -> bool
    ensures { result ≡ is_gone gone.now link }
{
    gone.iter().any(|other| *other == link)
}

// That these links are gone is due.
fn note_gone(gone: &[u32], dues: &mut VecDeque<Due>)
    requires { deque_len dues.old + length gone.now ≤ deque_capacity dues.old }
    ensures items { dues.new.items ≡ dues.old.items ++ gone_dues gone.now }
    ensures len { deque_len dues.new ≡ deque_len dues.old + length gone.now }
    ensures capacity { deque_capacity dues.new ≡ deque_capacity dues.old }
{
    for link in gone {
        dues.push_back_reserved(Due::Gone(*link));
    }
}

// ---- opens

// Opens a link to each of these peers.
fn open<S: Site>(site: &mut S, peers: &Peers, asked: &mut VecDeque<Peer>, dues: &mut VecDeque<Due>)
    requires { deque_len dues.old + deque_len asked.old ≤ deque_capacity dues.old }
    ensures { Opens S.follows peers.now asked.old.items site.old site.new dues.old.items dues.new.items }
{
    while let Some(peer) = asked.pop_front() {
        let _number = open_link(site, peers, peer, dues);
    }
}

// Opens a link to one peer, and answers its number.
fn open_link<S: Site>(
    site: &mut S,
    peers: &Peers,
    peer: Peer,
    dues: &mut VecDeque<Due>,
) -> Option<u32>
    requires { deque_len dues.old < deque_capacity dues.old }
    ensures acts { S.follows site.old site.new (open_act (address_of peers.now peer) (opening peer result)) }
    ensures dues { dues.new.items ≡ dues.old.items ++ open_due (address_of peers.now peer) (opening peer result) ∷ [] }
    ensures len { deque_len dues.new ≡ deque_len dues.old + 1 }
    ensures capacity { deque_capacity dues.new ≡ deque_capacity dues.old }
{
    let Some(at) = peers.address_of(&peer) else {
        dues.push_back_reserved(Due::NoLink(peer));
        return None;
    };
    match site.open(&at) {
        Ok(number) => {
            dues.push_back_reserved(Due::Opened(number, peer));
            Some(number)
        }
        Err(_) => {
            dues.push_back_reserved(Due::NoLink(peer));
            None
        }
    }
}

// ---- shuts

fn shut<S: Site>(site: &mut S, links: &[u32])
    ensures { S.follows site.old site.new (shut_acts links.now) }
{
    for link in links {
        site.shut(*link);
    }
}

fn lose<S: Site>(site: &mut S, link: Option<u32>)
    ensures { S.follows site.old site.new (lost_acts link) }
{
    match link {
        Some(number) => site.shut(number),
        None => {}
    }
}
