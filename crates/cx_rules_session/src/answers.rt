//! What a daemon and a client answer wherever an answer is due: laws of the definitions, of every state, link, reading and draw.

ghost use Rattle.std.specs.Prelude.{◌≡◌, ◌+◌, ◌≤◌, ℕ, Bool, true, List, [], ◌∷◌, ◌++◌, length, Some, None, Ok};
ghost use Rattle.cx_authorize.specs.Daemon.{Authority, Awaited};
ghost use Rattle.cx_authorize.specs.Judging.{judged_first, judged_second};
ghost use Rattle.cx_session.specs.cx_base.specs.Names.{Name};
ghost use Rattle.cx_session.specs.cx_base.specs.declared.kinds.EntityType.{EntityType};
ghost use Rattle.cx_session.specs.cx_base.specs.declared.operations.Operation.{Operation};
ghost use Rattle.cx_authorize.specs.cx_control.specs.declared.idents.ClientIdent.{ClientIdent};
ghost use Rattle.cx_authorize.specs.cx_control.specs.declared.reconnects.SessionReconnect.{SessionReconnect};
ghost use Rattle.cx_desk.specs.Handlers.{Handlers, answer_of};
ghost use Rattle.cx_rules.specs.cx_dice.specs.Draws.{challenge_of, connection_of, cookie_of};
ghost use Rattle.cx_rules.specs.cx_frame.specs.Frames.{frame_text};
ghost use Rattle.cx_authorize.specs.cx_journal.specs.declared.entries.Entry.TheVariants as entry;
ghost use Rattle.cx_authorize.specs.cx_journal.specs.declared.outcomes.Outcome.TheVariants.{Done};
ghost use Rattle.cx_rules.specs.cx_rotate.specs.declared.views.View.{View};
ghost use Rattle.cx_authorize.specs.cx_sealed.specs.declared.rotating_reply.RotatingReply.{RotatingReply};
ghost use Rattle.cx_authorize.specs.cx_sealed.specs.declared.service_ticket.ServiceTicket.{ServiceTicket};
ghost use Rattle.cx_rules.specs.cx_steps.specs.declared.events.Command.TheVariants.{Send};
ghost use Rattle.cx_rules.specs.cx_steps.specs.declared.events.Peer.TheVariants.{Monitor};
ghost use Rattle.cx_authorize.specs.cx_wire.specs.declared.bodies.Request.TheVariants as asked;
ghost use Rattle.cx_rules.specs.Acceptor.{AwaitsIdent, AwaitsProof, AwaitsRequest, Open, server_ident};
ghost use Rattle.cx_rules.specs.Connector as connector;
ghost use Rattle.cx_rules.specs.Connector.{Login};
ghost use Rattle.cx_rules.specs.Holdings.{held_login};
ghost use Rattle.cx_rules.specs.Inputs.{Submit, Tick, Turn};
ghost use Rattle.cx_rules.specs.Links.{Link};
ghost use Rattle.cx_rules.specs.Messages.{acknowledgement};
ghost use Rattle.cx_rules.specs.Requests.{Requests, first_open, request_message};
ghost use Rattle.cx_rules.specs.Secured.{Secured, acceptor_keys};
ghost use Rattle.cx_rules_session.specs.ClientRule.{ClientStage, WholeClientNode, first_call, sent_entry, whole_client_rule};
ghost use Rattle.cx_rules_session.specs.Complete.{EntersFirst, HasCounters, IsGood, judged_by, HasOpenCall, HasOpenLink, IsAdmissible, IsFetchDue, IsFetched, IsFirstPassed, IsResumable, IsSecondPassed, IsSendable, IsServable, IsSizedOperation, IsSigned, IsFetchReply, SaysAndShutsOthers, SaysAndStays, both_sealed, covered_bytes, incoming_arrival, sealed_bytes, signature_frame};
ghost use Rattle.cx_rules_session.specs.DaemonRule.{DaemonStage, DaemonState, asking_open, daemon_step, is_fetching};
ghost use Rattle.cx_rules_session.specs.IncomingLinks.{IncomingStage, Served, authorized_frame, sealed_challenge_frame, looked_entry};
ghost use Rattle.cx_rules_session.specs.Hosting.{Instruction, admission_of, answer_message, handled_entry, reconnect_ok};
ghost use Rattle.cx_rules_session.specs.Lossy.{is_lossy, lossy_flags};
ghost use Rattle.cx_rules_session.specs.Sessions.{Callee, HeldSession, operation_message};

/// What a daemon answers an authorizer that passes.
pub fn authorizing_laws()
    // The first one: AUTH_REPLY_MORE with a challenge.
    ensures welcomes { (handlers : Handlers) (d : DaemonState) (reading : ℕ) (draw : List ℕ) (link : Link IncomingStage) (ticket : ServiceTicket) → IsFirstPassed d link reading ticket
        → SaysAndStays link.number (frame_text (sealed_challenge_frame ticket.session (challenge_of draw))) (looked_entry (incoming_arrival d link AwaitsRequest reading draw) ∷ [])
        (daemon_step handlers d (Turn link.number) reading draw).out }
    // The second one: AUTH_DONE with the secret of the connection, and AUTH_SIGNATURE behind it.
    ensures authorizes { (handlers : Handlers) (d : DaemonState) (reading : ℕ) (draw : List ℕ) (link : Link IncomingStage) (awaited : Awaited) (ticket : ServiceTicket) (nonce : ℕ)
        → (passed : IsSecondPassed d link awaited reading ticket nonce) → length draw ≡ 384
        → SaysAndStays link.number
        (frame_text (authorized_frame ticket nonce (connection_of draw))
        ++ sealed_bytes (acceptor_keys (connection_of draw)) (signature_frame ticket.session (covered_bytes link passed.stands.size)))
        (looked_entry (incoming_arrival d link (AwaitsProof awaited) reading draw) ∷ []) (daemon_step handlers d (Turn link.number) reading draw).out }
    // Those pass that a holder of a ticket makes as it was issued, at a daemon that has its generation, while it is live.
    ensures passes_first { (kind : EntityType) (view : View) (reading : ℕ) (ticket : ServiceTicket) (nonce : ℕ) (bytes : List ℕ) → IsGood kind view reading None ticket nonce bytes
        → judged_by (λ shown. shown.ticket) (judged_first kind view reading bytes).value ≡ Ok ticket }
    ensures passes_second { (awaited : Awaited) (view : View) (reading : ℕ) (ticket : ServiceTicket) (nonce : ℕ) (bytes : List ℕ)
        → IsGood awaited.service view reading (Some awaited.challenge) ticket nonce bytes
        → judged_by {Y = ServiceTicket × ℕ} (λ shown. (shown.ticket, shown.authorize.nonce)) (judged_second awaited view reading bytes).value ≡ Ok (ticket, nonce) }
{}

/// What a daemon answers its clients.
pub fn hosting_laws()
    // CLIENT_IDENT of a cookie that is free, where there is a place: the session is admitted, and SERVER_IDENT is sent.
    ensures opens { (handlers : Handlers) (d : DaemonState) (reading : ℕ) (draw : List ℕ) (link : Link IncomingStage) (s : Secured) (owner : Authority) (ident : ClientIdent)
        → IsAdmissible d link s owner ident → length d.node.own.mon_client.address.ip ≡ 4 → HasCounters s.keys 1
        → SaysAndStays link.number (sealed_bytes s.keys (server_ident d.node.own.mon_client.address (lossy_flags (is_lossy ident.flags)) (cookie_of draw)))
        (entry.Admitted (admission_of (incoming_arrival d link (AwaitsIdent s owner) reading draw) owner d.book.next 1 ident.cookie) ∷ [])
        (daemon_step handlers d (Turn link.number) reading draw).out }
    // SESSION_RECONNECT that the book resumes: that is entered, and SESSION_RECONNECT_OK is sent.
    ensures takes_up { (handlers : Handlers) (d : DaemonState) (reading : ℕ) (draw : List ℕ) (link : Link IncomingStage) (s : Secured) (owner : Authority) (reconnect : SessionReconnect)
        (number epoch last : ℕ) (lossy : Bool) → IsResumable d link s owner reconnect number epoch last lossy → HasCounters s.keys 1
        → SaysAndShutsOthers link.number (sealed_bytes s.keys (reconnect_ok last))
        (entry.Resumed (admission_of (incoming_arrival d link (AwaitsIdent s owner) reading draw) owner number epoch reconnect.client_cookie) ∷ [])
        (daemon_step handlers d (Turn link.number) reading draw).out }
    // The next operation of a session, which its capabilities allow and which has a handler: it is done, and answered and acknowledged.
    ensures serves { (handlers : Handlers) (d : DaemonState) (reading : ℕ) (draw : List ℕ) (link : Link IncomingStage) (s : Secured) (served : Served) (i : Instruction)
        → IsServable handlers d link s served i → length (answer_of i.operation.access i.operation) ≤ 65536 → HasCounters s.keys 2
        → SaysAndStays link.number (both_sealed s.keys (answer_message i Done) (acknowledgement i.seq)) (handled_entry (incoming_arrival d link (Open s served) reading draw) served i Done ∷ [])
        (daemon_step handlers d (Turn link.number) reading draw).out }
    // A session is entered as admitted or resumed, and an operation as done, first of all, whatever counters are left.
    ensures opens_first { (handlers : Handlers) (d : DaemonState) (reading : ℕ) (draw : List ℕ) (link : Link IncomingStage) (s : Secured) (owner : Authority) (ident : ClientIdent)
        → IsAdmissible d link s owner ident
        → EntersFirst (entry.Admitted (admission_of (incoming_arrival d link (AwaitsIdent s owner) reading draw) owner d.book.next 1 ident.cookie))
        (daemon_step handlers d (Turn link.number) reading draw).out }
    ensures takes_up_first { (handlers : Handlers) (d : DaemonState) (reading : ℕ) (draw : List ℕ) (link : Link IncomingStage) (s : Secured) (owner : Authority) (reconnect : SessionReconnect)
        (number epoch last : ℕ) (lossy : Bool) → IsResumable d link s owner reconnect number epoch last lossy
        → EntersFirst (entry.Resumed (admission_of (incoming_arrival d link (AwaitsIdent s owner) reading draw) owner number epoch reconnect.client_cookie))
        (daemon_step handlers d (Turn link.number) reading draw).out }
    ensures serves_first { (handlers : Handlers) (d : DaemonState) (reading : ℕ) (draw : List ℕ) (link : Link IncomingStage) (s : Secured) (served : Served) (i : Instruction)
        → IsServable handlers d link s served i
        → EntersFirst (handled_entry (incoming_arrival d link (Open s served) reading draw) served i Done) (daemon_step handlers d (Turn link.number) reading draw).out }
{}

/// That a daemon asks for generations once they are outdated, and takes them.
pub fn fetching_laws()
    // Where no link to the monitor is open, one is opened, and the fetch is under way.
    ensures asks_for_link { (handlers : Handlers) (d : DaemonState) (reading : ℕ) (draw : List ℕ) → IsFetchDue d reading → first_open asking_open d.node.links ≡ None
        → ((daemon_step handlers d Tick reading draw).out.opens ≡ Monitor ∷ []) × (is_fetching (daemon_step handlers d Tick reading draw).state.node ≡ true) }
    // Where one is open, the request is sent on it.
    ensures asks_again { (handlers : Handlers) (d : DaemonState) (reading : ℕ) (draw : List ℕ) (link : Link DaemonStage) (s : Secured) (requests : Requests) → IsFetchDue d reading
        → HasOpenLink d link s requests
        → SaysAndStays link.number (sealed_bytes s.keys (request_message (requests.count + 1) asked.Rotating)) [] (daemon_step handlers d Tick reading draw).out }
    // The reply becomes the view, and that it was fetched is entered, once.
    ensures fetches_once { (handlers : Handlers) (d : DaemonState) (reading : ℕ) (draw : List ℕ) (link : Link connector.Stage) (s : Secured) (requests : Requests) (asked : ℕ)
        (reply : RotatingReply) → IsFetchReply d link s requests asked reply → IsFetched d asked reply.generations (daemon_step handlers d (Turn link.number) reading draw) }
{}

/// What a client sends, and what it holds.
pub fn sending_laws()
    // An operation in a session that has room: it is entered as sent, first of all, and goes out where a link is open.
    ensures sends { (c : WholeClientNode) (daemon : Name) (operation : Operation) (session : HeldSession) (link : Link ClientStage) (s : Secured) (callee : Callee) (cookie reading : ℕ)
        (draw : List ℕ) → IsSendable c daemon session → IsSizedOperation operation → HasOpenCall c session link s callee cookie
        → SaysAndStays link.number (sealed_bytes s.keys (operation_message (session.queue.last + 1, operation))) (sent_entry c.own session (session.queue.last + 1) operation ∷ [])
        (whole_client_rule c (Submit (Send daemon operation)) reading draw).out }
    ensures sends_first { (c : WholeClientNode) (daemon : Name) (operation : Operation) (session : HeldSession) (reading : ℕ) (draw : List ℕ) → IsSendable c daemon session
        → EntersFirst (sent_entry c.own session (session.queue.last + 1) operation) (whole_client_rule c (Submit (Send daemon operation)) reading draw).out }
    // Behind the monitor's right signature the login is held.
    ensures holds { (c : WholeClientNode) (link : Link connector.Stage) (s : Secured) (login : Login) (reading : ℕ) (draw : List ℕ) → IsSigned c link s login
        → (whole_client_rule c (Turn link.number) reading draw).state.own.mon_client.holdings ≡ held_login c.own.mon_client.holdings login.gid login.opened }
{}
