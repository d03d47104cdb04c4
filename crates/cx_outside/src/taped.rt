//! A site that keeps what was done at it, in one list.

ghost use Rattle.std.specs.Prelude.{◌≡◌, false, [], IfOk};
ghost use Rattle.cx_outside.specs.site.Tapes.{Notes};

use crate::site::Site;
use crate::{LinkEvent, Regard};
use cx_base::{Addr, Failed, Reading};
use cx_dice::Draw;
use cx_keep::CommitRefusal;
use cx_rotate::KeptState;
use std::alloc::{AllocError, Global};

/// What was done at a site, or came there; of what can fail, whether it went well.
#[derive(Clone, Copy, Debug, PartialEq, Eq)]
pub enum Did {
    /// It listened.
    Listened(bool),
    /// An event came on the links.
    Came(LinkEvent),
    /// A wait failed.
    Broke,
    /// The clock was read.
    Read(Reading),
    /// The dice were rolled.
    Rolled(bool),
    /// A state was saved.
    Saved(bool),
    /// So many bytes were sent on a link.
    Sent(u32, usize, bool),
    /// A link was opened, which got this number.
    Opened(Option<u32>),
    /// A link was shut.
    Shut(u32),
    /// It was told how a link is regarded.
    Regarded(u32, Regard),
}

/// A site with a tape, which keeps one after the other what is done at the site. Where the tape is full, it tells nothing.
#[derive(Drop)]
pub struct Taped<S> {
    site: S,
    tape: Vec<Did>,
    full: bool,
}

impl<S: Drop> Taped<S> {
    /// This site with an empty tape, which has room for so much.
    pub fn new(alloc: Global, site: S, room: usize) -> Result<Taped<S>, AllocError>
        ensures { IfOk result (λ taped. (taped.site ≡ site) × (taped.tape.items ≡ []) × (taped.full ≡ false)) }
    {
        match Vec::with_capacity(alloc, room) {
            Ok(tape) => Ok(Taped {
                site,
                tape,
                full: false,
            }),
            Err(error) => Err(error),
        }
    }
}

impl<S> Taped<S> {
    /// What was done, in order.
    pub fn did(&self) -> &[Did]
        ensures { result.now ≡ self.now.tape.items }
    {
        self.tape.as_slice()
    }

    /// Whether more was done than there was room for.
    pub fn is_full(&self) -> bool
        ensures { result ≡ self.now.full }
    {
        self.full
    }

    // Keeps what was done, where there is room.
    fn note(&mut self, did: Did)
        ensures site { self.new.site ≡ self.old.site }
        ensures tape { Notes self.old.tape.items self.old.full self.new.tape.items self.new.full did }
    {
        if self.tape.len() < self.tape.capacity() {
            self.tape.push_reserved(did);
        } else {
            self.full = true;
        }
    }
}

impl<S: Site> Site for Taped<S> {
    ghost use Rattle.std.specs.Prelude.{List};
    ghost use Rattle.cx_outside.specs.site.Acts.{Act};
    ghost use Rattle.cx_outside.specs.site.Tapes.{TapeTells, tape_goes_on, tape_stays};

    ghost follows = { λ a b acts. S.follows a.site b.site acts × TapeTells a.tape.items a.full b.tape.items b.full acts };

    ghost stays = { λ s. (S.stays s.site, tape_stays s.tape.items s.full) };

    ghost goes_on = { λ a b c xs ys p q. (S.goes_on a.site b.site c.site xs ys p.0 q.0, tape_goes_on _ _ _ _ _ _ xs ys p.1 q.1) };

    fn next(&mut self, into: &mut [u8]) -> Result<LinkEvent, Failed> {
        match self.site.next(into) {
            Ok(event) => {
                self.note(Did::Came(event));
                Ok(event)
            }
            Err(failed) => {
                self.note(Did::Broke);
                Err(failed)
            }
        }
    }

    fn read(&mut self) -> Reading {
        let reading = self.site.read();
        self.note(Did::Read(reading));
        reading
    }

    fn block(&mut self) -> Result<Draw, Failed> {
        match self.site.block() {
            Ok(draw) => {
                self.note(Did::Rolled(true));
                Ok(draw)
            }
            Err(failed) => {
                self.note(Did::Rolled(false));
                Err(failed)
            }
        }
    }

    fn save(&mut self, alloc: Global, state: &KeptState) -> Result<(), CommitRefusal> {
        match self.site.save(alloc, state) {
            Ok(()) => {
                self.note(Did::Saved(true));
                Ok(())
            }
            Err(CommitRefusal::KeepFault) => {
                self.note(Did::Saved(false));
                Err(CommitRefusal::KeepFault)
            }
            Err(CommitRefusal::OutOfMemory) => Err(CommitRefusal::OutOfMemory),
        }
    }

    fn send(&mut self, link: u32, bytes: &[u8]) -> Result<(), Failed> {
        let count = bytes.len();
        match self.site.send(link, bytes) {
            Ok(()) => {
                self.note(Did::Sent(link, count, true));
                Ok(())
            }
            Err(failed) => {
                self.note(Did::Sent(link, count, false));
                Err(failed)
            }
        }
    }

    fn open(&mut self, to: &Addr) -> Result<u32, Failed> {
        match self.site.open(to) {
            Ok(number) => {
                self.note(Did::Opened(Some(number)));
                Ok(number)
            }
            Err(failed) => {
                self.note(Did::Opened(None));
                Err(failed)
            }
        }
    }

    fn shut(&mut self, link: u32) {
        self.site.shut(link);
        self.note(Did::Shut(link));
    }

    fn regard(&mut self, link: u32, regard: Regard) {
        self.site.regard(link, regard);
        self.note(Did::Regarded(link, regard));
    }
}
