//! Links in memory, whose events are a script, which tell all that they do, and fail where they are told to.

ghost use Rattle.std.specs.Prelude.{◌≡◌, ◌+◌, ◌^◌, ◌<◌, ◌≤◌, [], ◌∷◌, ◌++◌, length, take, min, not, true, vec_len, vec_capacity, IfOk, OnOk, OnErr, MatchResult, is_ok};
ghost use Rattle.std.specs.Result.{result_ok};
ghost use Rattle.std.specs.VecDeque.{deque_len, deque_capacity};
ghost use Rattle.cx_base.specs.Streams.{Counts, is_listed};
ghost use Rattle.cx_outside.specs.linking.Acts.{Listened, Opened, Gave, Broke, Sent, Shut, Regarded};
ghost use Rattle.cx_outside.specs.linking.Events.{IsWithin, came};
ghost use Rattle.cx_outside.specs.linking.Living.{lives, without};
ghost use Rattle.cx_outside.specs.linking.Paths.{Path};
ghost use Rattle.cx_outside.specs.linking.Scripts.{after_fault, after_listen, after_next, after_open, after_send, after_shut, behind_in, counted, event_next, fails_next, number_next, owed, piece, rest, scripted, takes_next, with_bytes, with_call};

use crate::events::{LinkCall, LinkEvent};
use crate::links::Links;
use crate::regard::Regard;
use cx_base::{Addr, Blob, Failed, Items};
use std::alloc::{AllocError, Global};
use std::collections::VecDeque;
use std::marker::Model;

/// Links whose events are a script, with room for so many bytes in so many calls, taken when they are made.
///
/// The n-th link has the number n, whichever number the script gives it. A piece of bytes gives the next bytes that are left, at
/// most as many as there is room for, and the rest at the following calls. An event on a link that doesn't live, or with no byte
/// left, is none. Call number i of those that can fail, from 1, fails where `fails` holds the byte i, and so does one that takes
/// what doesn't fit the room that is left.
#[derive(Debug, Drop)]
pub struct ScriptLinks {
    events: VecDeque<LinkEvent>,
    bytes: Blob,
    place: usize,
    links: u32,
    living: Vec<u32>,
    taken: Vec<u8>,
    calls: Vec<LinkCall>,
    room: usize,
    spare: usize,
    fails: Blob,
    asked: u64,
    faults: u64,
    misses: u64,
}

impl Model for ScriptLinks {
    ghost use Rattle.std.specs.Prelude.{◌+◌, ◌*◌, ◌^◌, ◌<◌, ◌≤◌, drop, length, vec_len, vec_capacity};
    ghost use Rattle.std.specs.VecDeque.{deque_len, deque_capacity};
    ghost use Rattle.cx_outside.specs.linking.Scripts.{Scripted};

    ghost Value = { Scripted };

    ghost view = { λ l. record {
      events = l.events.items;
      bytes = drop l.place l.bytes;
      links = l.links;
      living = l.living.items;
      taken = l.taken.items;
      calls = l.calls.items;
      room = l.room;
      spare = l.spare;
      fails = l.fails;
      asked = l.asked;
      faults = l.faults;
      misses = l.misses;
    } };

    ghost invariant = { λ l. (l.place ≤ length l.bytes)
        × (deque_len l.events ≤ deque_capacity l.events)
        × (l.links + deque_len l.events + l.spare < 2 ^ 32)
        × (vec_len l.living + deque_len l.events + l.spare ≤ vec_capacity l.living)
        × (vec_len l.taken + l.room ≤ vec_capacity l.taken)
        × (vec_len l.calls + vec_len l.living + deque_len l.events + 2 * l.spare ≤ vec_capacity l.calls) };
}

impl ScriptLinks {
    /// Links of this script, on which nothing has come yet.
    pub fn new(
        alloc: Global,
        events: Items<LinkEvent>,
        bytes: Blob,
        room: usize,
        fails: Blob,
    ) -> Result<ScriptLinks, AllocError>
        requires { length events + room < 2 ^ 32 }
        ensures { IfOk result (λ l. l ≡ scripted events bytes room fails) }
    {
        let count = events.all().len();
        let script = Vec::from_slice(alloc, events.all())?;
        let living = Vec::with_capacity(alloc, count + room)?;
        let taken = Vec::with_capacity(alloc, room)?;
        let calls = Vec::with_capacity(alloc, count + 2 * room)?;
        Ok(ScriptLinks {
            events: VecDeque::from_vec(script),
            bytes,
            place: 0,
            links: 0,
            living,
            taken,
            calls,
            room,
            spare: room,
            fails,
            asked: 0,
            faults: 0,
            misses: 0,
        })
    }

    /// The bytes that were sent so far.
    pub fn taken(&self) -> &[u8]
        ensures { result.now ≡ self.now.taken }
    {
        self.taken.as_slice()
    }

    /// The calls that took something so far.
    pub fn calls(&self) -> &[LinkCall]
        ensures { result.now ≡ self.now.calls }
    {
        self.calls.as_slice()
    }

    // Counts a call that can fail, and says whether it takes so many bytes.
    fn takes(&mut self, count: usize) -> bool
        ensures takes { result ≡ takes_next self.old count }
        ensures state { self.new ≡ counted self.old }
        ensures fits { result ≡ true → (0 < self.old.spare) × (count ≤ self.old.room) }
    {
        !self.is_listed() && 0 < self.spare && count <= self.room
    }

    // Counts a call that can fail, and says whether it is listed.
    fn is_listed(&mut self) -> bool
        ensures listed { result ≡ fails_next self.old }
        ensures state { self.new ≡ counted self.old }
    {
        self.asked = self.asked.saturating_add(1);
        is_listed(self.fails.bytes(), self.asked)
    }

    // Keeps a call that was taken.
    fn keep_call(&mut self, call: LinkCall)
        requires { 0 < self.old.spare }
        ensures { self.new ≡ with_call call self.old }
    {
        self.calls.push_reserved(call);
        self.spare -= 1;
    }

    // Keeps these bytes, which fit.
    fn keep_bytes(&mut self, bytes: &[u8])
        requires { length bytes.now ≤ self.old.room }
        ensures { self.new ≡ with_bytes bytes.now self.old }
    {
        self.taken.extend_from_slice(bytes).unwrap();
        self.room -= bytes.len();
    }

    // How many bytes of a piece of so many are to come on this link.
    fn owed(&self, link: u32, count: usize) -> usize
        ensures owed { result ≡ owed self.now link count }
        ensures fits { result ≤ length self.now.bytes }
    {
        if self.lives(link) {
            count.min(self.bytes.bytes().len() - self.place)
        } else {
            0
        }
    }

    // Gives the event at the front of the script.
    fn give(&mut self, into: &mut [u8]) -> LinkEvent
        requires { 0 < length into.old }
        ensures event { result ≡ event_next self.old (length into.old) }
        ensures bytes { came result into.new ≡ came result self.old.bytes }
        ensures state { self.new ≡ behind_in self.old (length into.old) self.old.events }
    {
        let Some(event) = self.events.pop_front() else {
            return LinkEvent::Quiet;
        };
        match event {
            LinkEvent::Opened(_) => LinkEvent::Opened(begin(&mut self.links, &mut self.living)),
            LinkEvent::Bytes(link, count) => {
                let owed = self.owed(link, count);
                let given = copy(&self.bytes.bytes()[self.place..], owed, into);
                self.place += given;
                put_back(&mut self.events, link, owed - given);
                bytes_event(link, given)
            }
            LinkEvent::Gone(link) => {
                let lived = self.lives(link);
                give_up(&mut self.living, link);
                if lived {
                    LinkEvent::Gone(link)
                } else {
                    LinkEvent::Quiet
                }
            }
            LinkEvent::Quiet => LinkEvent::Quiet,
        }
    }

    // Whether this link lives.
    fn lives(&self, link: u32) -> bool
        ensures { result ≡ lives link self.now.living }
    {
        is_among(self.living.as_slice(), link)
    }
}

impl Links for ScriptLinks {
    ghost use Rattle.cx_outside.specs.linking.Paths.{Path, path_on};
    ghost use Rattle.std.proofs.Common.{refl};

    ghost follows = { λ a b acts. Path a acts b };

    ghost stays = { λ l. refl };

    ghost goes_on = { path_on };

    ghost faults = { λ l. l.faults };

    ghost misses = { λ l. l.misses };

    /// Fails exactly where the number of this call is listed or the call doesn't fit.
    fn listen(&mut self, at: &Addr) -> Result<(), Failed>
        ensures did { Path self.old (Listened at.now (is_ok result) ∷ []) self.new }
        ensures cause { Counts self.old.faults self.new.faults result }
        ensures other { self.new.misses ≡ self.old.misses }
        ensures answer { is_ok result ≡ takes_next self.old 0 }
        ensures state { self.new ≡ after_listen at.now self.old }
    {
        if !self.takes(0) {
            self.faults = self.faults.saturating_add(1);
            return Err(Failed);
        }
        self.keep_call(LinkCall::Listened(*at));
        Ok(())
    }

    /// Fails exactly where the number of this call is listed or the call doesn't fit.
    fn open(&mut self, to: &Addr) -> Result<u32, Failed>
        ensures did { Path self.old (Opened to.now (result_ok result) ∷ []) self.new }
        ensures cause { Counts self.old.misses self.new.misses result }
        ensures other { self.new.faults ≡ self.old.faults }
        ensures answer { result_ok result ≡ number_next self.old }
        ensures state { self.new ≡ after_open to.now self.old }
    {
        if !self.takes(0) {
            self.misses = self.misses.saturating_add(1);
            return Err(Failed);
        }
        self.calls
            .push_reserved(LinkCall::Opened(self.links + 1, *to));
        self.spare -= 1;
        Ok(begin(&mut self.links, &mut self.living))
    }

    /// Fails exactly where the number of this call is listed. At the end of the script nothing comes.
    fn next(&mut self, into: &mut [u8]) -> Result<LinkEvent, Failed>
        requires { 0 < length into.old }
        ensures did { MatchResult result (λ event. Path self.old (Gave event (came event into.new) ∷ []) self.new) (λ _. Path self.old (Broke ∷ []) self.new) }
        ensures bound { IfOk result (λ event. IsWithin event (length into.old)) }
        ensures room { length into.new ≡ length into.old }
        ensures cause { Counts self.old.faults self.new.faults result }
        ensures other { self.new.misses ≡ self.old.misses }
        ensures answer { is_ok result ≡ not (fails_next self.old) }
        ensures event { IfOk result (λ event. event ≡ event_next self.old (length into.old)) }
        ensures bytes { IfOk result (λ event. came event into.new ≡ came event self.old.bytes) }
        ensures given { OnOk result (self.new ≡ after_next (length into.old) self.old) }
        ensures broke { OnErr result (self.new ≡ after_fault self.old) }
    {
        if self.is_listed() {
            self.faults = self.faults.saturating_add(1);
            return Err(Failed);
        }
        Ok(self.give(into))
    }

    /// Fails exactly where the number of this call is listed or the bytes don't fit. Nothing of them is taken then.
    fn send(&mut self, link: u32, bytes: &[u8]) -> Result<(), Failed>
        ensures did { Path self.old (Sent link bytes.now (is_ok result) ∷ []) self.new }
        ensures cause { Counts self.old.misses self.new.misses result }
        ensures other { self.new.faults ≡ self.old.faults }
        ensures answer { is_ok result ≡ takes_next self.old (length bytes.now) }
        ensures state { self.new ≡ after_send link bytes.now self.old }
    {
        if !self.takes(bytes.len()) {
            self.misses = self.misses.saturating_add(1);
            return Err(Failed);
        }
        self.keep_call(LinkCall::Sent(link, bytes.len()));
        self.keep_bytes(bytes);
        Ok(())
    }

    /// Takes a call where the link lives, and nothing else.
    fn shut(&mut self, link: u32)
        ensures did { Path self.old (Shut link ∷ []) self.new }
        ensures cause { self.new.faults ≡ self.old.faults }
        ensures other { self.new.misses ≡ self.old.misses }
        ensures state { self.new ≡ after_shut link self.old }
    {
        if self.lives(link) {
            give_up(&mut self.living, link);
            self.calls.push_reserved(LinkCall::Shut(link));
        }
    }

    /// Changes nothing of what comes and nothing of what is kept.
    fn regard(&mut self, link: u32, regard: Regard)
        ensures did { Path self.old (Regarded link regard ∷ []) self.new }
        ensures cause { self.new.faults ≡ self.old.faults }
        ensures other { self.new.misses ≡ self.old.misses }
        ensures state { self.new ≡ self.old }
    {}
}

fn is_listed(fails: &[u8], call: u64) -> bool
    ensures { result ≡ is_listed fails.now call }
{
    fails.iter().any(|b| u64::from(*b) == call)
}

fn is_among(living: &[u32], link: u32) -> bool
    ensures { result ≡ lives link living.now }
{
    living.iter().any(|l| *l == link)
}

// A new link, which gets the next number.
fn begin(links: &mut u32, living: &mut Vec<u32>) -> u32
    requires numbers { links.old + 1 < 2 ^ 32 }
    requires room { vec_len living.old < vec_capacity living.old }
    ensures number { result ≡ links.old + 1 }
    ensures links { links.new ≡ links.old + 1 }
    ensures items { living.new.items ≡ living.old.items ++ (links.old + 1) ∷ [] }
    ensures len { vec_len living.new ≡ vec_len living.old + 1 }
    ensures capacity { vec_capacity living.new ≡ vec_capacity living.old }
{
    *links += 1;
    living.push_reserved(*links);
    *links
}

// Puts the rest of a piece of bytes, if there is one, back to the front.
fn put_back(events: &mut VecDeque<LinkEvent>, link: u32, count: usize)
    requires { deque_len events.old < deque_capacity events.old }
    ensures items { events.new.items ≡ rest link count ++ events.old.items }
    ensures len { deque_len events.new ≤ deque_len events.old + 1 }
    ensures capacity { deque_capacity events.new ≡ deque_capacity events.old }
{
    if count > 0 {
        events.push_front_reserved(LinkEvent::Bytes(link, count));
    }
}

// A piece of so many bytes, and nothing where there are none.
fn bytes_event(link: u32, count: usize) -> LinkEvent
    ensures { result ≡ piece link count }
{
    if count == 0 {
        LinkEvent::Quiet
    } else {
        LinkEvent::Bytes(link, count)
    }
}

// Gives this link up.
fn give_up(living: &mut Vec<u32>, link: u32)
    ensures items { living.new.items ≡ without link living.old.items }
    ensures len { vec_len living.new ≤ vec_len living.old }
    ensures fewer { lives link living.old.items ≡ true → vec_len living.new < vec_len living.old }
    ensures capacity { vec_capacity living.new ≡ vec_capacity living.old }
{
    living.retain(|l| *l != link);
}

// Copies as many of these bytes as fit, at most so many.
fn copy(bytes: &[u8], count: usize, into: &mut [u8]) -> usize
    requires { count ≤ length bytes.now }
    ensures count { result ≡ min count (length into.old) }
    ensures copied { take result into.new ≡ take result bytes.now }
{
    let copied = count.min(into.len());
    into[..copied].copy_from_slice(&bytes[..copied]);
    copied
}
