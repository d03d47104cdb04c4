//! The laws of what the monitor keeps.

ghost use Rattle.std.specs.Prelude.{ℕ, ◌≡◌, List, [], ◌∷◌, Some, true};
ghost use Rattle.cx_command_line.specs.declared.commands.MonitorCommand.{MonitorCommand};
ghost use Rattle.cx_drive_commands.specs.nodes.Monitors.{HasServer, lives_of};
ghost use Rattle.cx_drive_commands.specs.nodes.Outside.{Outside};
ghost use Rattle.cx_drive_commands.specs.nodes.Runs.{Runs};
ghost use Rattle.cx_drive_commands.specs.nodes.Stops.{AreAlike, BeginsWith, IsStopped, KeepsUp, last_saved};
ghost use Rattle.cx_drive.specs.Courses.{acts_from};
ghost use Rattle.cx_drive.specs.Held.{lost_monitor, no_peers, regard_monitor};
ghost use Rattle.cx_drive.specs.declared.flow.Order.{Order};
ghost use Rattle.cx_journal.specs.declared.entries.Entry.{Entry as JournalEntry};
ghost use Rattle.cx_keep.specs.Slots.{Kept};
ghost use Rattle.cx_keyserver.specs.Servers.{Server};
ghost use Rattle.cx_outside.specs.linking.Acts.{Listened};
ghost use Rattle.cx_loading.specs.declared.ends.NodeEnd.{NodeEnd};
ghost use Rattle.cx_rules.specs.MonitorRule.{is_idle, monitor_rule, opening_monitor};
ghost use Rattle.cx_outside.specs.site.Acts.{Linked};

use cx_outside::Links;

/// While the monitor runs, at each moment: what is kept spells the state that was saved last, and before the first save what was loaded. With
/// `order_law` of cx_drive, by which nothing of a step is sent before its save, whatever was sent rests on what is kept.
pub fn kept_law<L: Links>()
    ensures { (command : MonitorCommand) (a b : Outside L) (kept : Kept) (server : Server) (orders : List Order) (ending : NodeEnd) (entries : List JournalEntry) → a.kept ≡ Some kept
        → HasServer command a.kept server
        → (ran : Runs L.follows monitor_rule lost_monitor is_idle regard_monitor no_peers (Linked (Listened command.listen true) ∷ []) a b (opening_monitor server command.listen) orders command.events ending entries)
        → KeepsUp (lives_of command) kept server.state (acts_from monitor_rule lost_monitor regard_monitor no_peers (opening_monitor server command.listen) ran.run.trace) }
{}

/// The monitor that starts in the same folder behind one whose save failed, with the same lifetimes or a state that holds its own: it begins with
/// the state that was saved last before the step in which that was, or with the one that this step saves.
pub fn second_monitor_law<L: Links>()
    ensures { (first second : MonitorCommand) (bytes : List ℕ) (a b : Outside L) (kept left : Kept) (entries : List JournalEntry)
        (stopped : IsStopped L.follows first bytes a b kept entries) → b.kept ≡ Some left → AreAlike first second left → (server : Server) → HasServer second (Some left) server
        → BeginsWith server (last_saved stopped.server.state (acts_from monitor_rule lost_monitor regard_monitor no_peers (opening_monitor stopped.server first.listen) stopped.trace)) stopped.state }
{}
