//! One end of a link: the pieces that it sent, each kept once, and how much of them came.

ghost use Rattle.std.specs.Prelude.{ℕ, ◌≡◌, ◌+◌, ◌≤◌, ◌<◌, true, false, [], ◌∷◌, ◌++◌, drop, length, slice_get, IfOk, OnOk, OnErr};
ghost use Rattle.std.specs.Option.{option_copied};
ghost use Rattle.cx_run.specs.Wires.{new_end};
ghost use Rattle.cx_world_start.specs.links.Ends.{arriving, sent_by, staying};

use cx_base::Blob;
use std::alloc::{AllocError, Global};
use std::marker::Model;

/// Room for the pieces of a login, made at the first one.
const ROOM: usize = 6;

/// One end of a link.
#[derive(Drop)]
pub(crate) struct End {
    lives: bool,
    ever: Vec<Blob>,
    came: usize,
    taken: usize,
}

impl Model for End {
    ghost use Rattle.cx_run.specs.Wires.{End as LinkEnd};

    ghost Value = { LinkEnd };

    ghost use Rattle.cx_world_start.specs.links.Ends.{end_with, IsEnd};

    ghost view = { λ e. end_with e.lives e.ever.items e.came e.taken };

    ghost invariant = { λ e. IsEnd e.ever.items e.came e.taken };
}

impl End {
    /// An end of a link that was just opened.
    pub(crate) fn new(alloc: Global) -> End
        ensures { result ≡ new_end }
    {
        End {
            lives: true,
            ever: Vec::new(alloc),
            came: 0,
            taken: 0,
        }
    }

    /// Whether its node still has it.
    pub(crate) fn lives(&self) -> bool
        ensures { result ≡ self.now.lives }
    {
        self.lives
    }

    /// How many pieces are under way from it.
    #[tactic(auto, using(crate::proofs::links::Parts::count_left))]
    pub(crate) fn under_way(&self) -> usize
        ensures { result ≡ length self.now.under_way }
    {
        self.ever.len() - self.came
    }

    /// The piece at a place, from 0, among all that it ever sent.
    pub(crate) fn ever_sent(&self, place: usize) -> Option<&Blob>
        ensures { option_copied result ≡ slice_get self.now.ever place }
    {
        self.ever.get(place)
    }

    /// It sends a piece, which reaches the other end or is lost.
    pub(crate) fn send(&mut self, piece: Blob, reaches: bool) -> Result<(), AllocError>
        requires { reaches ≡ false → self.old.under_way ≡ [] }
        ensures ok { OnOk result (self.new ≡ sent_by reaches self.old piece) }
        ensures err { OnErr result (self.new ≡ self.old) }
    {
        if self.ever.capacity() == 0 {
            self.ever.reserve(ROOM)?;
        }
        self.ever.push(piece)?;
        if !reaches {
            self.came = self.ever.len();
            self.taken = 0;
        }
        Ok(())
    }

    /// The oldest piece under way from it is lost, if there is one.
    #[tactic(auto, using(crate::proofs::links::Parts::lost_first))]
    pub(crate) fn lose_first(&mut self)
        ensures { self.new ≡ record self.old { under_way = drop 1 self.old.under_way } }
    {
        if self.came < self.ever.len() {
            self.came += 1;
            self.taken = 0;
        }
    }

    /// All that is under way from it is lost.
    pub(crate) fn lose_all(&mut self)
        ensures { self.new ≡ record self.old { under_way = [] } }
    {
        self.came = self.ever.len();
        self.taken = 0;
    }

    /// Its node no longer has it.
    pub(crate) fn go(&mut self)
        ensures { self.new ≡ record self.old { lives = false } }
    {
        self.lives = false;
    }

    /// The oldest piece under way from it arrives, or so many first bytes of it.
    pub(crate) fn take(&mut self, alloc: Global, n: Option<u64>) -> Result<Option<Blob>, AllocError>
        ensures value { IfOk result (λ bytes. bytes ≡ arriving n self.old.under_way) }
        ensures ok { OnOk result (self.new ≡ record self.old { under_way = staying n self.old.under_way }) }
        ensures err { OnErr result (self.new ≡ self.old) }
    {
        let ever = self.ever.as_slice();
        if self.came >= ever.len() {
            return Ok(None);
        }
        let piece = ever[self.came].bytes();
        let rest = &piece[self.taken..];
        match n {
            Some(n) if n < rest.len() as u64 => {
                let count = n as usize;
                let bytes = Blob::of(alloc, &rest[..count])?;
                self.taken += count;
                Ok(Some(bytes))
            }
            _ => {
                let bytes = Blob::of(alloc, rest)?;
                self.came += 1;
                self.taken = 0;
                Ok(Some(bytes))
            }
        }
    }
}
