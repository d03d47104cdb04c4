//! The law of the services' generations.

ghost use Rattle.std.specs.Prelude.{List};
ghost use Rattle.cx_laws_tickets.specs.chain.Chain.{KeepsGenerations};
ghost use Rattle.cx_laws_tickets.specs.chain.Granted.{AreOfKeyring};
ghost use Rattle.cx_laws_tickets.specs.cx_run.specs.Happenings.{Happening};
ghost use Rattle.cx_laws_tickets.specs.cx_run.specs.Opening.{Setup};
ghost use Rattle.cx_laws_tickets.specs.cx_run.specs.Points.{points};

/// Of every list of events, from every opening, whatever is delivered, lost, repeated, forged or cut, restarted, or failed at a save: the generations of
/// each service are one growing list, of which the monitor's saved state holds the three newest of those that were ever saved, and its memory
/// besides those that a rotation added since; ids rise by one, and neighbours expire a life apart. Each ticket is sealed under the generation that it
/// names, which was saved and current when it was made; and one id has one key for ever. Each ticket was made at the reading of its event and expires one life
/// later, and is for an entity of the keyring, with the capabilities that this one has there for the ticket's service.
pub fn chain_laws()
    ensures generations { (setup : Setup) (hs : List Happening) → KeepsGenerations setup hs }
    ensures granted { (setup : Setup) (hs : List Happening) → AreOfKeyring setup (points setup hs) }
{}
