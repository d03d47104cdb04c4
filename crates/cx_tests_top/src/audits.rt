//! Journals, audited.

use crate::given::{audit_of, writes};
use cx_top::Status;

/// A session behind its ticket. Others are those of `examples/audits`.
const LEGAL: &str =
    "issued 1 client.a osd 2 2 1000 4600 \"allow *\"\nadmitted osd.0 1 1 c1 client.a 2 1000 \"allow *\"\n";

const WITHOUT_TICKET: &str = "admitted osd.0 1 1 c1 client.a 2 1000 \"allow *\"\n";

#[test]
fn a_journal_is_audited_with_ample_memory(rt: HostRuntime) {
    let given = audit_of(LEGAL.as_bytes());
    assert!(rt; writes(&rt, rt.alloc(), &given, Status::Done, "legal\n"));
}

#[test]
fn a_breach_is_told(rt: HostRuntime) {
    let given = audit_of(WITHOUT_TICKET.as_bytes());
    assert!(rt; writes(&rt, rt.alloc(), &given, Status::Done, "breaks 1 11\n"));
}
