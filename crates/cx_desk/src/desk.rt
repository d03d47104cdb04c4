//! The desk of handlers.

ghost use Rattle.std.specs.Prelude.{◌≡◌, IfOk};
ghost use Rattle.std.specs.Option.{ForSome};
ghost use Rattle.cx_base.specs.declared.kinds.Access.TheVariants.{Read, Write, Exec};
ghost use Rattle.cx_desk.specs.Handlers.{Answers, IsPermitted, IsCallable, IsFaithful};

use crate::refusals::ServeRefusal;
use cx_base::{Access, Blob};
use cx_caps::Permitted;
use std::alloc::{AllocError, Global};

/// What serves permitted operations of one kind. It is made by the program or a test, and handed in.
pub type Handler = Box<dyn Fn(Global, &Permitted) -> Result<Blob, AllocError> + Send + Sync>;

// A handler, beside the fact that it may be called on every permitted operation of its kind and answers it truly.
#[derive(Drop)]
struct Stored {
    kind: Access,
    call: Handler,
    ghost callable: { IsCallable kind (Handler.pre call) },
    ghost faithful: { IsFaithful kind (Handler.post call) },
}

impl Stored {
    fn serve(&self, alloc: Global, ask: &Permitted) -> Result<Blob, AllocError>
        requires { IsPermitted self.now.kind ask.now }
        ensures { IfOk result (λ reply. Answers self.now.kind ask.now.ask reply) }
    {
        (self.call)(alloc, ask)
    }
}

/// At most one handler for each kind of access.
#[derive(Drop)]
pub struct Desk {
    read: Option<Stored>,
    write: Option<Stored>,
    exec: Option<Stored>,
    ghost reads: { ForSome read (λ stored. stored.kind ≡ Read) },
    ghost writes: { ForSome write (λ stored. stored.kind ≡ Write) },
    ghost execs: { ForSome exec (λ stored. stored.kind ≡ Exec) },
}

impl Desk {
    ghost use Rattle.std.specs.Prelude.{◌≡◌, is_some, IfSome, IfOk, IfErr, true, false, Err};
    ghost use Rattle.cx_desk.specs.Handlers.{Answers, IsPermitted, IsCallable, IsFaithful, has_handler, with_handler};
    ghost use Rattle.cx_desk.specs.Held.{handlers_of};
    ghost use Rattle.cx_desk.specs.Causes.{IsServeCause};

    /// A desk without handlers.
    pub fn empty() -> Desk
        ensures { handlers_of result ≡ record { read = false; write = false; exec = false } }
    {
        Desk {
            read: None,
            write: None,
            exec: None,
        }
    }

    /// Keeps the handler for operations of this kind, in place of the one that was there.
    pub fn set(&mut self, kind: Access, handler: Handler)
        requires callable { IsCallable kind (Handler.pre handler) }
        requires faithful { IsFaithful kind (Handler.post handler) }
        ensures { handlers_of self.new ≡ with_handler kind (handlers_of self.old) }
    {
        let stored = Some(Stored {
            kind,
            call: handler,
        });
        match kind {
            Access::Read => self.read = stored,
            Access::Write => self.write = stored,
            Access::Exec => self.exec = stored,
        }
    }

    fn stored(&self, kind: Access) -> Option<&Stored>
        ensures found { is_some result ≡ has_handler kind (handlers_of self.now) }
        ensures kind { IfSome result (λ stored. stored.now.kind ≡ kind) }
    {
        match kind {
            Access::Read => self.read.as_ref(),
            Access::Write => self.write.as_ref(),
            Access::Exec => self.exec.as_ref(),
        }
    }

    /// The reply of the handler for the operation's kind.
    pub fn serve(&self, alloc: Global, ask: &Permitted) -> Result<Blob, ServeRefusal>
        ensures ok { IfOk result (λ reply. Answers ask.now.ask.access ask.now.ask reply) }
        ensures served { IfOk result (λ _. has_handler ask.now.ask.access (handlers_of self.now) ≡ true) }
        ensures none { has_handler ask.now.ask.access (handlers_of self.now) ≡ false → result ≡ Err (ServeRefusal.NoHandler ask.now.ask.access) }
        ensures err { IfErr result (IsServeCause ask.now.ask.access (handlers_of self.now)) }
    {
        let kind = ask.operation().access;
        match self.stored(kind) {
            None => Err(ServeRefusal::NoHandler { kind }),
            Some(stored) => {
                let reply = stored.serve(alloc, ask)?;
                Ok(reply)
            }
        }
    }
}
