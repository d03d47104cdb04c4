//! The writer, and what it tells.

ghost use Rattle.std.specs.Prelude.{◌≡◌, ◌++◌, ◌∷◌, ◌+◌, ◌↔◌, [], IfOk, OnOk, OnErr, Err, drop, length};
ghost use Rattle.cx_shared.specs.Looks.{IsLookOf};
ghost use Rattle.cx_shared.specs.Places.{known_at, IsSettled};
ghost use Rattle.cx_shared.specs.declared.refusals.RenewRefusal.TheVariants.{Spent};

use crate::looks::Look;
use crate::refusals::RenewRefusal;
use crate::rule::{Learns, LookReader, LookWriter, Publishes, Tells};
use cx_rotate::View;
use std::alloc::AllocError;
use std::marker::Model;
use std::sync::Wait;

/// What a writer told: all that it had published. To a contract it is that list.
#[derive(Drop)]
pub struct Told {
    pub(crate) carrier: LookReader,
    pub(crate) look: Look,
}

impl Model for Told {
    ghost use Rattle.std.specs.Prelude.{List};
    ghost use Rattle.cx_rotate.specs.declared.views.View.{View};
    ghost use Rattle.cx_shared.specs.Places.{known_at};
    ghost use Rattle.cx_shared.specs.Looks.{IsLookOf};

    ghost Value = { List View };

    ghost view = { λ told. known_at told.carrier.place };

    ghost invariant = { λ told. IsLookOf told.look (known_at told.carrier.place) };
}

/// The writer of the views that readers look at. To a contract it is the list of all renewals. It is given up by `end` alone.
pub struct SecretsWriter {
    writer: Option<LookWriter>,
}

impl Model for SecretsWriter {
    ghost use Rattle.std.specs.Prelude.{[], IfSome, IsSome, option_map, unwrap_or, drop, List};
    ghost use Rattle.cx_rotate.specs.declared.views.View.{View};
    ghost use Rattle.cx_shared.specs.Places.{known_at, IsSettled};

    ghost Value = { List View };

    ghost view = { λ w. unwrap_or (option_map (λ writer. known_at writer.desk.place) w.writer) [] };

    ghost invariant = { λ w. IsSome w.writer × IfSome w.writer (λ writer. IsSettled writer.desk.shown.value writer.desk.place (drop writer.behind writer.log.items)) };
}

impl SecretsWriter {
    pub(crate) fn over(writer: LookWriter) -> SecretsWriter
        requires nothing { known_at writer.desk.place ≡ [] }
        requires settled { IsSettled writer.desk.shown.value writer.desk.place (drop writer.behind writer.log.items) }
        ensures { result ≡ [] }
    {
        SecretsWriter {
            writer: Some(writer),
        }
    }

    /// All that was published so far, for a reader to learn. At `Err` as many tellings are out as there are places for, or
    /// memory was wanting. It waits for nobody.
    pub fn tell(&mut self) -> Result<Told, AllocError>
        ensures told { IfOk result (λ told. told ≡ self.old) }
        ensures same { self.new ≡ self.old }
    {
        let Some(writer) = &mut self.writer else {
            unreachable!()
        };
        let mut carrier = writer.factory().reader()?;
        carrier.learn::<Learns>(writer.tell::<Tells>());
        let look = *writer.published();
        Ok(Told { carrier, look })
    }

    /// Publishes a view behind all others. It waits for the readers that still read the view before the last.
    pub fn renew<R: Wait>(&mut self, rt: &R, view: View) -> Result<(), RenewRefusal>
        ensures ok { OnOk result (self.new ≡ self.old ++ view ∷ []) }
        ensures err { OnErr result (self.new ≡ self.old) }
        ensures spent { (result ≡ Err Spent) ↔ (length self.old ≡ 18446744073709551615) }
    {
        let Some(writer) = self.writer.take() else {
            unreachable!()
        };
        let (writer, published) = publish(rt, writer, view);
        if let Some(_other) = self.writer.replace(writer) {
            unreachable!()
        }
        published
    }

    /// Gives the writer up. Readers go on to look at what they know. It waits for the readers that are reading.
    pub fn end<R: Wait>(self, rt: &R) {
        let SecretsWriter { writer } = self;
        if let Some(writer) = writer {
            drop(writer.take(rt));
        }
    }
}

// Publishes a view behind all others.
fn publish<R: Wait>(
    rt: &R,
    mut writer: LookWriter,
    view: View,
) -> (LookWriter, Result<(), RenewRefusal>)
    requires { IsSettled writer.desk.shown.value writer.desk.place (drop writer.behind writer.log.items) }
    ensures settled { IsSettled result.0.desk.shown.value result.0.desk.place (drop result.0.behind result.0.log.items) }
    ensures ok { OnOk result.1 (known_at result.0.desk.place ≡ known_at writer.desk.place ++ view ∷ []) }
    ensures err { OnErr result.1 (known_at result.0.desk.place ≡ known_at writer.desk.place) }
    ensures spent { (result.1 ≡ Err Spent) ↔ (length (known_at writer.desk.place) ≡ 18446744073709551615) }
{
    let count = writer.published().count;
    if count == u64::MAX {
        return (writer, Err(RenewRefusal::Spent));
    }
    let look = Look {
        view,
        count: count + 1,
    };
    if append(&mut writer, &look).is_err() {
        return (writer, Err(RenewRefusal::OutOfMemory));
    }
    (show(rt, writer, &look), Ok(()))
}

// Puts a look behind those that wait to be published.
fn append(writer: &mut LookWriter, look: &Look) -> Result<(), AllocError>
    ensures desk { writer.new.desk ≡ writer.old.desk }
    ensures ok { OnOk result (drop writer.new.behind writer.new.log.items ≡ drop writer.old.behind writer.old.log.items ++ look.now ∷ []) }
    ensures err { OnErr result (drop writer.new.behind writer.new.log.items ≡ drop writer.old.behind writer.old.log.items) }
{
    match writer.append(*look) {
        Ok(()) => Ok(()),
        Err(_) => Err(AllocError),
    }
}

// Shows the look that waits to be published.
fn show<R: Wait>(rt: &R, writer: LookWriter, look: &Look) -> LookWriter
    requires waiting { drop writer.behind writer.log.items ≡ look.now ∷ [] }
    requires shown { IsLookOf writer.desk.shown.value (known_at writer.desk.place) }
    requires next { look.now.count ≡ length (known_at writer.desk.place) + 1 }
    ensures settled { IsSettled result.desk.shown.value result.desk.place (drop result.behind result.log.items) }
    ensures known { known_at result.desk.place ≡ known_at writer.desk.place ++ look.now.view ∷ [] }
{
    writer.publish_as::<Publishes, R>(rt).0
}
