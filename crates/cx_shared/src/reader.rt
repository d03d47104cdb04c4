//! A reader.

ghost use Rattle.std.specs.Prelude.{◌≡◌, []};
ghost use mathlib.Core.List.{IsPrefix};
ghost use Rattle.cx_shared.specs.Looks.{IsLookOf};
ghost use Rattle.cx_shared.specs.Places.{known_at};
ghost use Rattle.cx_shared.specs.Views.{longer};

use crate::looks::{Look, first_look};
use crate::rule::{LookReader, Sees};
use crate::writer::Told;
use std::marker::Model;

/// A reader of the views that one writer renews. To a contract it is the list of renewals that it knows: it saw them, or was
/// told of them.
#[derive(Drop)]
pub struct SecretsReader {
    reader: Option<LookReader>,
    last: Look,
}

impl Model for SecretsReader {
    ghost use Rattle.std.specs.Prelude.{IfSome, IsSome, option_map, unwrap_or, List, []};
    ghost use Rattle.cx_rotate.specs.declared.views.View.{View};
    ghost use Rattle.cx_shared.specs.Looks.{IsLookOf};
    ghost use Rattle.cx_shared.specs.Places.{known_at};

    ghost Value = { List View };

    ghost view = { λ r. unwrap_or (option_map (λ reader. known_at reader.place) r.reader) [] };

    ghost invariant = { λ r. IsSome r.reader × IfSome r.reader (λ reader. IsLookOf r.last (known_at reader.place)) };
}

impl SecretsReader {
    pub(crate) fn over(reader: LookReader) -> SecretsReader
        requires { known_at reader.place ≡ [] }
        ensures { result ≡ [] }
    {
        SecretsReader {
            reader: Some(reader),
            last: first_look(),
        }
    }

    /// The last view of a list of renewals that begins with all that this reader knew, and the length of that list, which the
    /// reader knows from now on. Once the writer has ended, it is what the reader knew. It waits for nobody.
    pub fn look(&mut self) -> Look
        ensures later { IsPrefix self.old self.new }
        ensures shown { IsLookOf result self.new }
    {
        let Some(reader) = self.reader.take() else {
            unreachable!()
        };
        match reader.enter_as::<Sees>() {
            Ok(reading) => {
                self.last = *reading.get();
                self.reader = Some(reading.leave());
            }
            Err(reader) => self.reader = Some(reader),
        }
        self.last
    }

    /// From now on the reader knows all that the writer had published when it told, or what it knew before, where that is
    /// longer. It waits for nobody.
    pub fn learn(&mut self, told: Told)
        ensures { self.new ≡ longer self.old told }
    {
        let Told { carrier, look } = told;
        if self.last.count < look.count {
            self.reader = Some(carrier);
            self.last = look;
        }
    }
}
