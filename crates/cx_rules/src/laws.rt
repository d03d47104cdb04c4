//! What a step may answer at most, what it has to answer, and what a machine may forget: laws of the definitions, of every state, event, reading
//! and draw.

ghost use Rattle.std.specs.Prelude.{◌≡◌, ◌<◌, ℕ, true, false, List, [], ◌∷◌, None, Some, find, length, take};
ghost use Rattle.cx_base.specs.declared.addresses.Addr.{Addr};
ghost use Rattle.cx_base.specs.declared.kinds.EntityType.{EntityType};
ghost use Rattle.cx_keyserver.specs.cx_keyring.specs.Entries.{is_named};
ghost use Rattle.cx_keyserver.specs.cx_keyring.specs.declared.entries.Entry.{Entry as Principal};
ghost use Rattle.cx_keyserver.specs.Servers.{Server};
ghost use Rattle.cx_login.specs.cx_wire.specs.declared.bodies.Request.TheVariants as asked;
ghost use Rattle.cx_login.specs.cx_wire.specs.declared.logins.Authenticate.{Authenticate};
ghost use Rattle.cx_login.specs.cx_wire.specs.declared.logins.LoginHello.{LoginHello};
ghost use Rattle.cx_rules.specs.Abridged.{MonitorStandsFor, abridged_monitor};
ghost use Rattle.cx_rules.specs.Answering.{AreGenerationsDue, AreTicketsDue, GivesChallenge, GivesGenerations, GivesLogin, GivesTickets, HearsBanner, HearsGreeting, HearsHello, HearsIdent, HearsProof, HearsRequest, HearsSignature, IsDue, OpensLink, RotatesToCurrent, RotatesToThree};
ghost use Rattle.cx_rules.specs.Acceptor.{AwaitsHello, AwaitsIdent, AwaitsRequest, Open, server_ident};
ghost use Rattle.cx_rules.specs.Carrying.{CarriesOn, HandsOn};
ghost use Rattle.cx_rules.specs.Greetings.{own_hello};
ghost use Rattle.cx_rules.specs.Secured.{Secured, sealed_under, under};
ghost use Rattle.cx_stream.specs.cx_frame.specs.Frames.{frame_text};
ghost use Rattle.cx_base.specs.declared.kinds.EntityType.TheVariants.{Mon};
ghost use Rattle.cx_rules.specs.Connector as connector;
ghost use Rattle.cx_rules.specs.Connector.{Login, MonClientArrival, Stage, client_ident, login_request};
ghost use Rattle.cx_rules.specs.MonClientAnswering.{HearsChallenge, HearsHelloOf, HearsLogin, HearsReply, HearsRightSignature, HearsServerIdent, own_signature, proof_frame};
ghost use Rattle.cx_rules.specs.Fronts.{Next, banner_next};
ghost use Rattle.cx_rules.specs.Holdings.{held_login};
ghost use Rattle.cx_rules.specs.Links.{Link};
ghost use Rattle.cx_rules.specs.Requests.{Requests, behind_reply, behind_request, fetched_entry, no_requests, request_message, with_tickets, with_view};
ghost use Rattle.cx_rules.specs.declared.requests.Want.TheVariants.{Rotating, Tickets};
ghost use Rattle.cx_login.specs.Held.{Held};
ghost use Rattle.cx_login.specs.Unlocking.{told_each, unlocked};
ghost use Rattle.cx_login.specs.cx_journal.specs.declared.premises.KeyKind.TheVariants as kind;
ghost use Rattle.cx_login.specs.cx_wire.specs.declared.bodies.Reply.TheVariants as given;
ghost use Rattle.cx_login.specs.cx_wire.specs.declared.tickets.TicketPart.{TicketPart};
ghost use Rattle.cx_keyserver.specs.cx_dice.specs.Draws.{cookie_of};
ghost use Rattle.cx_keyserver.specs.cx_sealed.specs.Records.{rotating_reply_layout};
ghost use Rattle.cx_keyserver.specs.cx_sealed.specs.declared.rotating_reply.RotatingReply.{RotatingReply};
ghost use Rattle.cx_base.specs.Names.{is_daemon_type};
ghost use Rattle.cx_rules.specs.Inputs.{Input, Opened, Turn};
ghost use Rattle.cx_rules.specs.Judged.{MonClientLogsTurn, IsJudged, LogsTurn, NamesLinks};
ghost use Rattle.cx_rules.specs.Monitor.{MonitorArrival, MonitorNode, Offered};
ghost use Rattle.cx_rules.specs.MonitorRule.{monitor_rule, noted, opening_monitor, turned_at, unsaved};
ghost use Rattle.cx_rules.specs.Rows.{forgotten};

/// Of every step of the monitor, and of every turn of one that logs in.
pub fn rule_laws()
    // The monitor hands out tickets only behind a proof that was found equal, or behind a frame that opened on a link that was open, on a link
    // that goes on, once what there is is saved; and a step that denies or refuses hands out nothing, seals no ticket and saves nothing.
    ensures judged { (m : MonitorNode) (input : Input) (reading : ℕ) (draw : List ℕ) → IsJudged m input (monitor_rule m input reading draw) }
    // Effects name links that live, or the one that opens.
    ensures monitor_links { (m : MonitorNode) (input : Input) (reading : ℕ) (draw : List ℕ) → NamesLinks m input (monitor_rule m input reading draw).out }
    // What a turn draws is logged.
    ensures monitor_draws { (a : MonitorArrival) → LogsTurn a (turned_at a a.link.stage) }
    ensures mon_client_draws { (a : MonClientArrival) → MonClientLogsTurn a (connector.turned_at a a.link.stage) }
{}

/// The monitor answers: what is due is given at the turn of the link on which it is asked for, whatever the state of the monitor, the reading and
/// the draw. No refusal is excepted.
pub fn answering_laws()
    // A link that opens is sent the banner, where fewer than 1,024 live; a peer's banner is answered by HELLO; and behind HELLO a login is waited for.
    ensures opens { (m : MonitorNode) (number reading : ℕ) (draw : List ℕ) → length m.links < 1024 → OpensLink m number (monitor_rule m (Opened number None) reading draw) }
    ensures greets { (m : MonitorNode) (number reading : ℕ) (draw : List ℕ) (heard : HearsBanner m number)
        → CarriesOn m.links heard.behind AwaitsHello (frame_text (own_hello Mon)) [] (monitor_rule m (Turn number) reading draw)
        × ((monitor_rule m (Turn number) reading draw).state.own ≡ (noted m).own) }
    ensures hears_hello { (m : MonitorNode) (number reading : ℕ) (draw : List ℕ) (heard : HearsGreeting m number)
        → CarriesOn m.links heard.behind AwaitsRequest [] [] (monitor_rule m (Turn number) reading draw)
        × ((monitor_rule m (Turn number) reading draw).state.own ≡ (noted m).own) }
    // A right AUTH_SIGNATURE is taken, and behind CLIENT_IDENT the link is open.
    ensures takes_signature { (m : MonitorNode) (number reading : ℕ) (draw : List ℕ) (heard : HearsSignature m number)
        → CarriesOn m.links heard.behind (AwaitsIdent (under heard.secured heard.keys) heard.bearer) [] [] (monitor_rule m (Turn number) reading draw)
        × ((monitor_rule m (Turn number) reading draw).state.own ≡ (noted m).own) }
    ensures opens_link { (m : MonitorNode) (number reading : ℕ) (draw : List ℕ) (heard : HearsIdent m number)
        → CarriesOn m.links heard.behind (Open (under heard.secured (sealed_under heard.keys (server_ident m.own.address 1 0)).keys) heard.bearer)
        (sealed_under heard.keys (server_ident m.own.address 1 0)).bytes [] (monitor_rule m (Turn number) reading draw)
        × ((monitor_rule m (Turn number) reading draw).state.own ≡ (noted m).own) }
    // An entity of the keyring that says hello is sent a challenge.
    ensures challenges { (m : MonitorNode) (number : ℕ) (hello : LoginHello) (reading : ℕ) (draw : List ℕ) (heard : HearsHello m number hello) (principal : Principal)
        → find (is_named hello.name) m.own.server.ring ≡ Some principal
        → GivesChallenge m number hello draw principal heard.behind (monitor_rule m (Turn number) reading draw) }
    // A right proof gets a global id and its tickets.
    ensures logs_in { (m : MonitorNode) (number : ℕ) (offered : Offered) (ask : Authenticate) (reading : ℕ) (draw : List ℕ) (heard : HearsProof m number offered ask)
        → (due : IsDue m offered ask reading draw)
        → GivesLogin m number offered ask reading draw due.principal heard.behind (monitor_rule m (Turn number) reading draw) }
    // A request for tickets gets them.
    ensures renews { (m : MonitorNode) (number keys reading : ℕ) (draw : List ℕ) (heard : HearsRequest m number (asked.Tickets keys))
        → (due : AreTicketsDue m heard.bearer keys reading draw)
        → GivesTickets m number keys reading draw heard due.principal (monitor_rule m (Turn number) reading draw) }
    // A daemon's request for the generations of its type gets them.
    ensures tells { (m : MonitorNode) (number reading : ℕ) (draw : List ℕ) (heard : HearsRequest m number asked.Rotating)
        → (due : AreGenerationsDue m heard.bearer reading draw)
        → GivesGenerations m number reading draw heard due.principal (monitor_rule m (Turn number) reading draw) }
    // A service has current secrets behind the rotation of each answer, and three of them with keys of 16 bytes, unless the bounds are reached behind
    // which none is added.
    ensures current { (reading : ℕ) (draw : List ℕ) (server : Server) (service : EntityType) → RotatesToCurrent reading draw server service }
    ensures three { (reading : ℕ) (draw : List ℕ) (server : Server) (service : EntityType) → RotatesToThree reading draw server service }
{}

/// One that asks the monitor, a client or a daemon, does its part: at each stage of its link what is due is taken and answered, whatever it holds, the reading and the draw. It is
/// said of the rows by which it goes; `asking_steps` of the crate above says it of whole clients and daemons.
pub fn asking_laws()
    // The peer's banner is answered by HELLO, and HELLO by AUTH_REQUEST.
    ensures greets { (a : MonClientArrival) (asked : ℕ) (behind : Link Stage) → banner_next a.link ≡ Next behind []
        → HandsOn a.own behind (connector.AwaitsHello asked) (frame_text (own_hello a.own.name.kind)) [] (connector.turned_at a (connector.AwaitsBanner asked)) }
    ensures asks { (a : MonClientArrival) (asked : ℕ) (heard : HearsHelloOf a)
        → HandsOn a.own heard.reads.behind (connector.AwaitsChallenge asked) (frame_text (login_request a.own)) [] (connector.turned_at a (connector.AwaitsHello asked)) }
    // A challenge is answered by a proof, and AUTH_DONE by AUTH_SIGNATURE.
    ensures proves { (a : MonClientArrival) (asked : ℕ) (heard : HearsChallenge a asked)
        → HandsOn a.own heard.reads.behind connector.AwaitsDone (frame_text (proof_frame a asked heard.server)) [] (connector.turned_at a (connector.AwaitsChallenge asked)) }
    ensures takes_login { (a : MonClientArrival) (heard : HearsLogin a)
        → HandsOn a.own heard.reads.behind
        (connector.AwaitsSignature (record { keys = (own_signature heard.logged_in (take heard.reads.behind.taken heard.reads.behind.received)).keys; session = heard.logged_in.auth.session; covered = heard.reads.behind.sent })
        (record { gid = heard.done.gid; opened = heard.logged_in }))
        (own_signature heard.logged_in (take heard.reads.behind.taken heard.reads.behind.received)).bytes [] (connector.turned_at a connector.AwaitsDone) }
    // Behind the monitor's right signature the login is held, and CLIENT_IDENT is sent.
    ensures holds { (a : MonClientArrival) (s : Secured) (login : Login) (heard : HearsRightSignature a s)
        → HandsOn (record a.own { holdings = held_login a.own.holdings login.gid login.opened }) heard.reads.behind
        (connector.AwaitsIdent (under s (sealed_under heard.reads.keys (client_ident a.own login.gid 1 (cookie_of a.draw))).keys) login.opened.auth.session)
        (sealed_under heard.reads.keys (client_ident a.own login.gid 1 (cookie_of a.draw))).bytes [] (connector.turned_at a (connector.AwaitsSignature s login)) }
    // Behind SERVER_IDENT the link is open; a daemon asks for the generations of its type on it.
    ensures opens_client { (a : MonClientArrival) (s : Secured) (session : List ℕ) (heard : HearsServerIdent a s) → is_daemon_type a.own.name.kind ≡ false
        → HandsOn a.own heard.reads.behind (connector.Open (under s heard.reads.keys) (no_requests session)) [] [] (connector.turned_at a (connector.AwaitsIdent s session)) }
    ensures opens_daemon { (a : MonClientArrival) (s : Secured) (session : List ℕ) (heard : HearsServerIdent a s) → is_daemon_type a.own.name.kind ≡ true
        → HandsOn a.own heard.reads.behind
        (connector.Open (under s (sealed_under heard.reads.keys (request_message 1 asked.Rotating)).keys) (behind_request (no_requests session) (Rotating a.reading)))
        (sealed_under heard.reads.keys (request_message 1 asked.Rotating)).bytes [] (connector.turned_at a (connector.AwaitsIdent s session)) }
    // A reply to the request that waits longest is taken: tickets that all open are held, and generations become the view, and are entered as fetched.
    ensures takes_tickets { (a : MonClientArrival) (s : Secured) (requests : Requests) (parts : List TicketPart) (held : List Held)
        (heard : HearsReply a s requests Tickets (given.Tickets parts)) → (told_each requests.session parts).value ≡ Some held
        → HandsOn (with_tickets a.own held) heard.reads.behind (connector.Open (under s heard.reads.keys) (behind_reply requests)) [] [] (connector.turned_at a (connector.Open s requests)) }
    ensures takes_generations { (a : MonClientArrival) (s : Secured) (requests : Requests) (reading : ℕ) (blob : List ℕ) (told : RotatingReply)
        (heard : HearsReply a s requests (Rotating reading) (given.Rotating blob)) → (unlocked rotating_reply_layout.form kind.Principal a.own.secret blob).value ≡ Some told
        → HandsOn (with_view a.own reading told.generations) heard.reads.behind (connector.Open (under s heard.reads.keys) (behind_reply requests)) []
        (fetched_entry a.own.name reading told.generations ∷ []) (connector.turned_at a (connector.Open s requests)) }
{}

/// What the monitor may forget of its links: from what it holds, the rules do the same as from the state for which that stands, which forgets
/// nothing, and what it holds behind the step, abridged, stands for the state behind it.
pub fn forgetting_laws()
    ensures monitor_forgets { (m s : MonitorNode) (input : Input) (reading : ℕ) (draw : List ℕ) → MonitorStandsFor m s
        → ((monitor_rule m input reading draw).out ≡ (monitor_rule s input reading draw).out)
        × MonitorStandsFor (abridged_monitor (monitor_rule m input reading draw).state) (monitor_rule s input reading draw).state }
    // What was saved may be taken back.
    ensures monitor_unsaved { (m s : MonitorNode) → MonitorStandsFor m s → MonitorStandsFor (unsaved m) (unsaved s) }
    // A link may be lost, as where memory is wanting.
    ensures monitor_loses { (m s : MonitorNode) (n : ℕ) → MonitorStandsFor m s → MonitorStandsFor (forgotten (noted m) n) (forgotten (noted s) n) }
    // As it begins, it has forgotten nothing; and what is abridged once can't be abridged further.
    ensures monitor_opening { (server : Server) (address : Addr) → MonitorStandsFor (opening_monitor server address) (opening_monitor server address) }
    ensures monitor_twice { (s : MonitorNode) → abridged_monitor (abridged_monitor s) ≡ abridged_monitor s }
{}
