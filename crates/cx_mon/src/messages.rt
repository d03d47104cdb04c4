//! Messages on an open link: what is asked, and what is changed by the answer.

ghost use Rattle.std.specs.Prelude.{◌≡◌, ◌<◌, Ok, IfOk};
ghost use Rattle.cx_node.specs.steps.Stages.{keys_alone};
ghost use Rattle.cx_rules.specs.Acceptor.{Open};
ghost use Rattle.cx_rules.specs.MonitorRequests.{on_demand, on_message};
ghost use Rattle.cx_mon.specs.acceptor.Rows.{IsMonitorRow, IsSameBut, Makes, arrived};
ghost use Rattle.cx_mon.specs.acceptor.Stages.{open_link};

use crate::hear;
use crate::links::Link;
use crate::own::{KeyChange, Own};
use crate::replies::responds;
use cx_frame::Frame;
use cx_link::SecureLink;
use cx_mon_grants::{Occasion, answer};
use cx_node::{Moment, NoRow, NodeRow, Row};
use cx_rules::{Bearer, Demand};
use std::alloc::{AllocError, Global};

// A message asks for something in its order, or the link is refused.
pub(crate) fn on_message(
    alloc: Global,
    own: &mut Own,
    at: &Moment<'_>,
    link: SecureLink,
    bearer: Bearer,
    frame: &Frame,
) -> Result<NodeRow<Link, KeyChange>, NoRow>
    requires { at.now.reading < 4000000000000000000 }
    ensures row { Makes own.old at.now (open_link at.now.number link bearer) (λ a. on_message Open a (keys_alone link.keys) bearer frame.now) result }
    ensures same { own.new ≡ own.old }
{
    match hear(alloc, &bearer, frame)? {
        Ok(demand) => on_demand(alloc, own, at, link, bearer, demand),
        Err(why) => Err(NoRow::Refused(why)),
    }
}

// What was heard is answered. What that changes is taken back here: it is settled once the row is carried out.
#[tactic(auto, using(crate::proofs::acceptor::Changed::change_made))]
fn on_demand(
    alloc: Global,
    own: &mut Own,
    at: &Moment<'_>,
    link: SecureLink,
    bearer: Bearer,
    demand: Demand,
) -> Result<NodeRow<Link, KeyChange>, NoRow>
    requires { at.now.reading < 4000000000000000000 }
    ensures row { Makes own.old at.now (open_link at.now.number link bearer) (λ a. on_demand Open a (keys_alone link.keys) bearer (Ok demand)) result }
    ensures same { own.new ≡ own.old }
{
    let before = own.mark();
    let made = answers(alloc, own, at, link, bearer, demand);
    let mark = own.mark();
    own.go_back(&before);
    let row = made?;
    let change = KeyChange::of(alloc, &mark)?;
    Ok(NodeRow {
        row,
        change: Some(change),
    })
}

// The same with what it changes.
fn answers(
    alloc: Global,
    own: &mut Own,
    at: &Moment<'_>,
    link: SecureLink,
    bearer: Bearer,
    demand: Demand,
) -> Result<Row<Link>, AllocError>
    requires { at.now.reading < 4000000000000000000 }
    ensures row { IfOk result (IsMonitorRow at.now.number own.new (on_demand Open (arrived own.old at.now (open_link at.now.number link bearer)) (keys_alone link.keys) bearer (Ok demand))) }
    ensures same { IsSameBut own.old own.new }
{
    let occasion = Occasion {
        saved: &own.saved,
        reading: at.reading,
        draw: at.draw,
    };
    let response = answer(alloc, &mut own.server, &bearer, demand.request, &occasion)?;
    let row = responds(alloc, own, at, link, bearer, demand, response)?;
    own.note_saved(&row.save);
    Ok(row)
}
