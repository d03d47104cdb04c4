//! Calls that hand in an owner, who comes back where they are refused.

ghost use Rattle.std.specs.Prelude.{◌≡◌, ◌↔◌, IfOk, IfErr, IfSome, IfNone, IsSome, IsErr, IsTrue, Some, Ok, Err};
ghost use Rattle.cx_session.specs.declared.call.BookCall.TheVariants.{Admit, Resume};
ghost use Rattle.cx_session.specs.declared.faults.AdmitFault.TheVariants as admit;
ghost use Rattle.cx_session.specs.declared.faults.ResumeFault.TheVariants as resume;
ghost use Rattle.cx_session.specs.Answers.{after, IsReserved};
ghost use Rattle.cx_hall.specs.Answers.{admission_as_reply, resumption_as_reply, owner_in};
ghost use Rattle.cx_hall.specs.Passes.{Made};
ghost use Rattle.cx_hall.specs.Rule.{IsWord};

use crate::book::{RecordedBook, record};
use crate::pass::{Pass, Receipt};
use crate::rule::{HallName, HallTable};
use cx_base::Owner;
use cx_session::{AdmitFault, AdmitRefusal, BookCall, ResumeFault, ResumeRefusal, SessionBook};
use std::alloc::Global;

impl<O: Owner, N: HallName> RecordedBook<O, N> {
    // Makes an admission.
    pub(crate) fn admit(
        &mut self,
        alloc: Global,
        table: &HallTable<O>,
        pass: &mut Pass<O, N>,
        owner: O,
        client_cookie: u64,
        server_cookie: u64,
        global_seq: u64,
        lossy: bool,
    ) -> (Result<(u64, u64), AdmitRefusal<O>>, Option<Receipt>)
        requires { (table.now.shared.table_id ≡ N.table) × IsWord table.now.shared.table_id }
        ensures made { IfSome result.1 (λ receipt. Made O.entity_of O.gid_of pass.old (Admit owner client_cookie server_cookie global_seq lossy) (admission_as_reply result.0) receipt.place pass.new) }
        ensures none { IfNone result.1 ((result.0 ≡ Err (record { owner = owner; fault = admit.OutOfMemory })) × (pass.new ≡ pass.old)) }
        ensures kept { IfErr result.0 (λ refusal. refusal.owner ≡ owner) }
    {
        let answer = self.book.admit_reply(client_cookie);
        let call = BookCall::Admit {
            owner,
            client_cookie,
            server_cookie,
            global_seq,
            lossy,
        };
        match record(&mut self.book, &mut self.history, alloc, table, pass, &call) {
            None => (Err(no_admission(call, AdmitFault::OutOfMemory)), None),
            Some(receipt) => (admit_recorded(&mut self.book, call, answer), Some(receipt)),
        }
    }

    // Makes a resumption.
    pub(crate) fn resume(
        &mut self,
        alloc: Global,
        table: &HallTable<O>,
        pass: &mut Pass<O, N>,
        owner: O,
        client_cookie: u64,
        server_cookie: u64,
        global_seq: u64,
        connect_seq: u64,
    ) -> (
        Result<(u64, u64, u64, bool), ResumeRefusal<O>>,
        Option<Receipt>,
    )
        requires { (table.now.shared.table_id ≡ N.table) × IsWord table.now.shared.table_id }
        ensures made { IfSome result.1 (λ receipt. Made O.entity_of O.gid_of pass.old (Resume owner client_cookie server_cookie global_seq connect_seq) (resumption_as_reply result.0) receipt.place pass.new) }
        ensures none { IfNone result.1 ((result.0 ≡ Err (record { owner = owner; fault = resume.OutOfMemory })) × (pass.new ≡ pass.old)) }
        ensures kept { IfErr result.0 (λ refusal. refusal.owner ≡ owner) }
    {
        let answer = self.book.resume_reply(
            alloc,
            &owner,
            client_cookie,
            server_cookie,
            global_seq,
            connect_seq,
        );
        let call = BookCall::Resume {
            owner,
            client_cookie,
            server_cookie,
            global_seq,
            connect_seq,
        };
        if wants_memory(&answer) {
            return (Err(no_resumption(call, ResumeFault::OutOfMemory)), None);
        }
        match record(&mut self.book, &mut self.history, alloc, table, pass, &call) {
            None => (Err(no_resumption(call, ResumeFault::OutOfMemory)), None),
            Some(receipt) => (resume_recorded(&mut self.book, call, answer), Some(receipt)),
        }
    }
}

// The owner in an admission or a resumption.
fn owner_in<O: Owner>(call: BookCall<O>) -> Option<O>
    ensures { result ≡ owner_in call }
{
    match call {
        BookCall::Admit { owner, .. } => Some(owner),
        BookCall::Resume { owner, .. } => Some(owner),
        BookCall::Check { .. } => None,
        BookCall::Take { .. } => None,
        BookCall::End { .. } => None,
    }
}

// Changes the book by an admission that was answered and is recorded.
fn admit_recorded<O: Owner>(
    book: &mut SessionBook<O>,
    call: BookCall<O>,
    answer: Result<(u64, u64), AdmitFault>,
) -> Result<(u64, u64), AdmitRefusal<O>>
    requires owner { IsSome (owner_in call) }
    requires ready { IsReserved book.old call }
    requires refused { IsErr answer → after O.entity_of O.gid_of book.old.book call ≡ book.old.book }
    ensures after { book.new.book ≡ after O.entity_of O.gid_of book.old.book call }
    ensures ok { IfOk result (λ given. answer ≡ Ok given) }
    ensures err { IfErr result (λ refusal. answer ≡ Err refusal.fault) }
    ensures kept { IfErr result (λ refusal. owner_in call ≡ Some refusal.owner) }
{
    match answer {
        Ok(given) => {
            book.apply(call);
            Ok(given)
        }
        Err(fault) => Err(no_admission(call, fault)),
    }
}

fn no_admission<O: Owner>(call: BookCall<O>, fault: AdmitFault) -> AdmitRefusal<O>
    requires { IsSome (owner_in call) }
    ensures owner { owner_in call ≡ Some result.owner }
    ensures fault { result.fault ≡ fault }
{
    match owner_in(call) {
        Some(owner) => AdmitRefusal { owner, fault },
        None => unreachable!(),
    }
}

// Changes the book by a resumption that was answered and is recorded.
fn resume_recorded<O: Owner>(
    book: &mut SessionBook<O>,
    call: BookCall<O>,
    answer: Result<(u64, u64, u64, bool), ResumeFault>,
) -> Result<(u64, u64, u64, bool), ResumeRefusal<O>>
    requires owner { IsSome (owner_in call) }
    requires ready { IsReserved book.old call }
    requires refused { IsErr answer → after O.entity_of O.gid_of book.old.book call ≡ book.old.book }
    ensures after { book.new.book ≡ after O.entity_of O.gid_of book.old.book call }
    ensures ok { IfOk result (λ given. answer ≡ Ok given) }
    ensures err { IfErr result (λ refusal. answer ≡ Err refusal.fault) }
    ensures kept { IfErr result (λ refusal. owner_in call ≡ Some refusal.owner) }
{
    match answer {
        Ok(given) => {
            book.apply(call);
            Ok(given)
        }
        Err(fault) => Err(no_resumption(call, fault)),
    }
}

fn no_resumption<O: Owner>(call: BookCall<O>, fault: ResumeFault) -> ResumeRefusal<O>
    requires { IsSome (owner_in call) }
    ensures owner { owner_in call ≡ Some result.owner }
    ensures fault { result.fault ≡ fault }
{
    match owner_in(call) {
        Some(owner) => ResumeRefusal { owner, fault },
        None => unreachable!(),
    }
}

fn wants_memory(answer: &Result<(u64, u64, u64, bool), ResumeFault>) -> bool
    ensures { IsTrue result ↔ (answer.now ≡ Err resume.OutOfMemory) }
{
    matches!(answer, Err(ResumeFault::OutOfMemory))
}
