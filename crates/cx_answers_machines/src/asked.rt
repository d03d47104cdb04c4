//! Requests that no link of a run can bring to the monitor: of an entity that isn't in its keyring, and behind the last numbers.

ghost use Rattle.std.specs.Prelude.{◌<◌};

use cx_answers_rows::{Draws, Others, client_name, reading_of, server_of};
use cx_base::{Blob, Items, Reading};
use cx_dice::Draw;
use cx_frame::{Frame, Segment};
use cx_journal::Reason;
use cx_keyserver::KeyServer;
use cx_mon::hear;
use cx_mon_grants::{Bearer, Occasion, Response, answer};
use cx_steps::{Effects, Event};
use cx_wire::Request;
use std::alloc::{AllocError, Global};

/// Beside the monitor and clients there are no nodes, and of other rows those of requests.
#[derive(Drop)]
pub struct Requests {}

impl Others for Requests {
    fn anew(&self, _alloc: Global) -> Requests {
        Requests {}
    }

    fn told(
        &mut self,
        alloc: Global,
        ring: &[u8],
        _kind: &str,
        rest: &str,
    ) -> Result<String, AllocError> {
        asked(alloc, server_of(alloc, ring)?, rest)
    }

    fn draw(&mut self, _node: &str, _number: u32) -> Option<Draw> {
        None
    }

    fn step(
        &mut self,
        _alloc: Global,
        _node: &str,
        _event: Event<'_>,
        _now: Reading,
        _draw: &Draw,
    ) -> Result<Option<Effects>, AllocError> {
        Ok(None)
    }
}

// What is told of a row `NAME LAST READING HEADER BODY`: whether the message with this header and body is answered, on the open link of the client
// of this name whose last message had that number.
fn asked(alloc: Global, server: KeyServer, row: &str) -> Result<String, AllocError> {
    let mut words = row.split(' ');
    let word = words.next().unwrap_or("");
    let last = words.next().unwrap_or("");
    let reading = reading_of(words.next().unwrap_or(""));
    let header = words.next().unwrap_or("");
    let body = words.next().unwrap_or("");
    let Some(name) = client_name(alloc, word)? else {
        return format!(in alloc; "request {word}: no client's name\n");
    };
    let bearer = Bearer {
        name,
        gid: 1,
        session: [0; 16],
        last: last.parse::<u64>().unwrap_or(0),
    };
    let frame = message_of(alloc, header, body)?;
    match refused(alloc, server, &bearer, &frame, reading)? {
        Some(why) => format!(in alloc; "request {word} {last}\n  refused {why}\n"),
        None => format!(in alloc; "request {word} {last}\n  answered\n"),
    }
}

// The frame of a message with this header and body.
fn message_of(alloc: Global, header: &str, body: &str) -> Result<Frame, AllocError> {
    let mut segments = Items::new(alloc);
    segments.push(alloc, segment_of(alloc, header)?)?;
    segments.push(alloc, segment_of(alloc, body)?)?;
    Ok(Frame { tag: 17, segments })
}

fn segment_of(alloc: Global, word: &str) -> Result<Segment, AllocError> {
    let mut bytes = Blob::new(alloc);
    if let Ok(read) = hex::decode(alloc, word) {
        bytes.append(alloc, &read)?;
    }
    Ok(Segment { align: 8, bytes })
}

// Why the message is refused, if it is.
fn refused(
    alloc: Global,
    server: KeyServer,
    bearer: &Bearer,
    frame: &Frame,
    reading: Reading,
) -> Result<Option<Reason>, AllocError>
    requires { reading < 4000000000000000000 }
{
    match hear(alloc, bearer, frame)? {
        Ok(demand) => unanswered(alloc, server, bearer, demand.request, reading),
        Err(why) => Ok(Some(why)),
    }
}

fn unanswered(
    alloc: Global,
    server: KeyServer,
    bearer: &Bearer,
    request: Option<Request>,
    reading: Reading,
) -> Result<Option<Reason>, AllocError>
    requires { reading < 4000000000000000000 }
{
    let mut server = server;
    let saved = server.state();
    let Some(draw) = Draws::new(alloc, 1).draw(0) else {
        return Err(AllocError);
    };
    let at = Occasion {
        saved: &saved,
        reading,
        draw: &draw,
    };
    match answer(alloc, &mut server, bearer, request, &at)? {
        Response::Refuses { why, seals: _ } => Ok(Some(why)),
        Response::Replies(_) => Ok(None),
    }
}
