//! What a turn of one part of a node comes to where what is due of it stands next, and that the whole node goes by that part: laws of the definitions, of every state, reading and draw.

ghost use Rattle.std.specs.Prelude.{◌≡◌, ℕ, List, [], ◌∷◌, None, Some, take};
ghost use Rattle.cx_rules_session.specs.cx_authorize.specs.Client.{Answered, Presented};
ghost use Rattle.cx_rules_session.specs.cx_authorize.specs.Daemon.{Authority};
ghost use Rattle.cx_rules_session.specs.cx_desk.specs.Handlers.{Handlers};
ghost use Rattle.cx_rules.specs.cx_dice.specs.Draws.{cookie_of};
ghost use Rattle.cx_rules.specs.cx_frame.specs.Frames.{frame_text};
ghost use Rattle.cx_rules_session.specs.cx_journal.specs.declared.entries.Entry.{Entry};
ghost use Rattle.cx_rules.specs.Acceptor.{AwaitsHello, AwaitsIdent, AwaitsRequest};
ghost use Rattle.cx_rules.specs.Carrying.{CarriesOn, HandsOn};
ghost use Rattle.cx_rules.specs.Connector as connector;
ghost use Rattle.cx_rules.specs.Connector.{client_ident};
ghost use Rattle.cx_rules.specs.Fronts.{Next, banner_next};
ghost use Rattle.cx_rules.specs.Greetings.{own_hello};
ghost use Rattle.cx_rules.specs.Holdings.{MonClient};
ghost use Rattle.cx_rules.specs.Inputs.{Turn};
ghost use Rattle.cx_rules.specs.Links.{Link, link_of};
ghost use Rattle.cx_rules.specs.Rows.{arrival};
ghost use Rattle.cx_rules.specs.Secured.{Secured, sealed_under, under};
ghost use Rattle.cx_rules_session.specs.ClientRule as client;
ghost use Rattle.cx_rules_session.specs.ClientRule.{ToDaemon, ToMonitor, WholeClientNode, caller_to, whole_client_rule, with_caller, with_mon_client};
ghost use Rattle.cx_rules_session.specs.DaemonRule as daemon;
ghost use Rattle.cx_rules_session.specs.DaemonRule.{AsConnector, DaemonState, daemon_step};
ghost use Rattle.cx_rules_session.specs.IncomingLinks.{IncomingStage};
ghost use Rattle.cx_rules_session.specs.Kinds.{of_kind};
ghost use Rattle.cx_rules_session.specs.Lossy.{lossy_flags};
ghost use Rattle.cx_rules_session.specs.Presenter as call;
ghost use Rattle.cx_rules_session.specs.Presenter.{CallArrival, CallStage, Caller, answered_entry, callee_of, first_frame, outcome_by, second_frame};
ghost use Rattle.cx_rules_session.specs.Sessions.{Called, Callee, HeldSession, acknowledged_up_to, held_gid, new_session};
ghost use Rattle.cx_laws_due.specs.Calling.{HearsAck, HearsAnswer, HearsChallenge, HearsReply, HearsServerIdent, own_signature, shown_on};
ghost use Rattle.cx_laws_due.specs.Calling as calling;
ghost use Rattle.cx_laws_due.specs.Incoming.{CarriesIncoming, HearsBanner, HearsHello, HearsSignature};

/// What a link's own part of a node hands on, the whole node carries on: it sends and enters just that, every other link is as it was, and of what the node has of its own that part
/// alone is another. `asking_laws` of `cx_rules` says what is handed on towards the monitor, and `calling_laws` what is towards a daemon.
pub fn lifting_laws()
    // A client's link to the monitor.
    ensures to_monitor { (c : WholeClientNode) (reading : ℕ) (draw : List ℕ) (link behind : Link connector.Stage) (before stage : connector.Stage) (own : MonClient) (bytes : List ℕ) (entries : List Entry)
        → link_of link.number c.links ≡ Some (of_kind ToMonitor (record link { stage = before })) → behind.number ≡ link.number
        → HandsOn own behind stage bytes entries (connector.turned_at (arrival (client.me c.own) c.own.mon_client (record link { stage = before }) reading draw) before)
        → CarriesOn c.links (of_kind ToMonitor behind) (ToMonitor stage) bytes entries (whole_client_rule c (Turn link.number) reading draw)
        × ((whole_client_rule c (Turn link.number) reading draw).state.own ≡ with_mon_client c.own own) }
    // A client's link to a daemon.
    ensures to_daemon { (c : WholeClientNode) (reading : ℕ) (draw : List ℕ) (link behind : Link CallStage) (before stage : CallStage) (own : Caller) (bytes : List ℕ) (entries : List Entry)
        → link_of link.number c.links ≡ Some (of_kind ToDaemon (record link { stage = before })) → behind.number ≡ link.number
        → HandsOn own behind stage bytes entries
        (call.turned_at (arrival (client.me c.own) (caller_to (callee_of before).daemon c.own) (record link { stage = before }) reading draw) before)
        → CarriesOn c.links (of_kind ToDaemon behind) (ToDaemon stage) bytes entries (whole_client_rule c (Turn link.number) reading draw)
        × ((whole_client_rule c (Turn link.number) reading draw).state.own ≡ with_caller (callee_of before).daemon c.own own) }
    // A daemon's link to the monitor; its book of sessions stays as it is.
    ensures as_connector { (handlers : Handlers) (d : DaemonState) (reading : ℕ) (draw : List ℕ) (link behind : Link connector.Stage) (before stage : connector.Stage) (own : MonClient)
        (bytes : List ℕ) (entries : List Entry) → link_of link.number d.node.links ≡ Some (of_kind AsConnector (record link { stage = before })) → behind.number ≡ link.number
        → HandsOn own behind stage bytes entries (connector.turned_at (arrival (daemon.me d.node.own) d.node.own.mon_client (record link { stage = before }) reading draw) before)
        → CarriesOn d.node.links (of_kind AsConnector behind) (AsConnector stage) bytes entries
        (record { state = (daemon_step handlers d (Turn link.number) reading draw).state.node; out = (daemon_step handlers d (Turn link.number) reading draw).out })
        × ((daemon_step handlers d (Turn link.number) reading draw).state ≡ record {
          node = record (daemon_step handlers d (Turn link.number) reading draw).state.node { own = daemon.with_mon_client d.node.own own };
          book = d.book;
        }) }
{}

/// A client does its part on a link to a daemon: at each stage, up to an open link and on it, what is due is taken and answered, whatever it holds, the reading and the draw.
pub fn calling_laws()
    // The peer's banner is answered by HELLO, and HELLO by the first authorizer.
    ensures greets { (a : CallArrival) (called : Called) (behind : Link CallStage) → banner_next a.link ≡ Next behind []
        → HandsOn a.own behind (call.AwaitsHello called) (frame_text (own_hello a.own.mon_client.name.kind)) [] (call.turned_at a (call.AwaitsBanner called)) }
    ensures shows { (a : CallArrival) (called : Called) (heard : calling.HearsHello a called)
        → HandsOn a.own heard.reads.behind (call.AwaitsChallenge called.callee (shown_on a called)) (frame_text (first_frame a.own.mon_client (shown_on a called))) []
        (call.turned_at a (call.AwaitsHello called)) }
    // The daemon's challenge is answered by the second authorizer, and AUTH_DONE to one's own nonce by AUTH_SIGNATURE.
    ensures answers_challenge { (a : CallArrival) (callee : Callee) (presented : Presented) (heard : HearsChallenge a presented)
        → HandsOn a.own heard.reads.behind (call.AwaitsDone callee (record { session = presented.held.session; nonce = presented.nonce }))
        (frame_text (second_frame presented heard.asked.challenge)) [] (call.turned_at a (call.AwaitsChallenge callee presented)) }
    ensures agrees { (a : CallArrival) (callee : Callee) (answered : Answered) (heard : HearsReply a answered)
        → HandsOn a.own heard.reads.behind
        (call.AwaitsSignature (record {
          keys = (own_signature heard.reply.secret answered.session (take heard.reads.behind.taken heard.reads.behind.received)).keys;
          session = answered.session;
          covered = heard.reads.behind.sent;
        }) callee)
        (own_signature heard.reply.secret answered.session (take heard.reads.behind.taken heard.reads.behind.received)).bytes [] (call.turned_at a (call.AwaitsDone callee answered)) }
    // Behind the daemon's right signature a session is asked for, where none is held; and behind SERVER_IDENT it is held with both cookies, and the link is open.
    ensures identifies { (a : CallArrival) (s : Secured) (callee : Callee) (heard : calling.HearsSignature a s) → a.own.session ≡ None
        → HandsOn a.own heard.reads.behind
        (call.AwaitsIdent (under s (sealed_under heard.reads.keys (client_ident a.own.mon_client (held_gid a.own.mon_client.holdings) (lossy_flags callee.lossy) (cookie_of a.draw))).keys) callee (cookie_of a.draw))
        (sealed_under heard.reads.keys (client_ident a.own.mon_client (held_gid a.own.mon_client.holdings) (lossy_flags callee.lossy) (cookie_of a.draw))).bytes []
        (call.turned_at a (call.AwaitsSignature s callee)) }
    ensures begins { (a : CallArrival) (s : Secured) (callee : Callee) (cookie : ℕ) (heard : HearsServerIdent a s)
        → HandsOn (record a.own { session = Some (new_session callee cookie heard.ident.cookie) }) heard.reads.behind (call.Open (under s heard.reads.keys) callee cookie) [] []
        (call.turned_at a (call.AwaitsIdent s callee cookie)) }
    // The answer of an operation is entered, and what was acknowledged waits no more.
    ensures enters_answer { (a : CallArrival) (s : Secured) (callee : Callee) (cookie : ℕ) (heard : HearsAnswer a s)
        → HandsOn a.own heard.reads.behind (call.Open (under s heard.reads.keys) callee cookie) []
        (answered_entry a.own.mon_client callee cookie (record { tid = heard.message.header.tid; outcome = outcome_by heard.answer.outcome }) ∷ []) (call.turned_at a (call.Open s callee cookie)) }
    ensures acknowledges { (a : CallArrival) (s : Secured) (callee : Callee) (cookie : ℕ) (heard : HearsAck a s) (session : HeldSession) → a.own.session ≡ Some session
        → HandsOn (record a.own { session = Some (acknowledged_up_to heard.ack.seq session) }) heard.reads.behind (call.Open (under s heard.reads.keys) callee cookie) [] []
        (call.turned_at a (call.Open s callee cookie)) }
{}

/// A daemon does its part on an incoming link, where no book of sessions is asked. (`authorizing_laws` and `hosting_laws` of `cx_rules_session` say what it answers an authorizer, CLIENT_IDENT,
/// SESSION_RECONNECT and an operation.)
pub fn incoming_laws()
    // The peer's banner is answered by HELLO, and behind HELLO an authorizer is waited for.
    ensures greets { (handlers : Handlers) (d : DaemonState) (reading : ℕ) (draw : List ℕ) (link : Link IncomingStage) (heard : HearsBanner d link)
        → CarriesIncoming d heard.behind AwaitsHello (frame_text (own_hello d.node.own.mon_client.name.kind)) [] (daemon_step handlers d (Turn link.number) reading draw) }
    ensures hears_hello { (handlers : Handlers) (d : DaemonState) (reading : ℕ) (draw : List ℕ) (link : Link IncomingStage) (heard : HearsHello d link)
        → CarriesIncoming d heard.behind AwaitsRequest [] [] (daemon_step handlers d (Turn link.number) reading draw) }
    // A right AUTH_SIGNATURE is taken.
    ensures takes_signature { (handlers : Handlers) (d : DaemonState) (reading : ℕ) (draw : List ℕ) (link : Link IncomingStage) (s : Secured) (owner : Authority) (heard : HearsSignature d link s owner)
        → CarriesIncoming d heard.behind (AwaitsIdent (under s heard.keys) owner) [] [] (daemon_step handlers d (Turn link.number) reading draw) }
{}
