//! What a line adds to what is known of the lines above the next one.

ghost use Rattle.std.specs.Prelude.{◌≡◌, OnOk};
ghost use Rattle.cx_lines.specs.Knowing.{is_late, is_spent, knowing, setting_known};

use crate::lines::{Head, Line};
use crate::settings::{Setting, SettingForm};
use cx_base::NodeName;
use cx_words::Known;
use std::alloc::{AllocError, Global};

/// Adds what the line says.
pub fn note(alloc: Global, known: &mut Known, line: &Line) -> Result<(), AllocError>
    ensures { OnOk result (known.new ≡ knowing known.old line.now) }
{
    match line {
        Line::Setting(setting) => note_setting(alloc, known, setting),
        Line::Submit(_) => {
            known.has_begun = true;
            Ok(())
        }
        Line::Do(_) => {
            known.has_begun = true;
            Ok(())
        }
        Line::Link(_) => {
            known.has_begun = true;
            Ok(())
        }
        Line::Node(_) => {
            known.has_begun = true;
            Ok(())
        }
    }
}

fn note_setting(alloc: Global, known: &mut Known, setting: &Setting) -> Result<(), AllocError>
    ensures { OnOk result (known.new ≡ setting_known known.old setting.now) }
{
    match setting {
        Setting::Lifetime(_) => {
            known.has_life = true;
            Ok(())
        }
        Setting::AuthLifetime(_) => {
            known.has_auth_life = true;
            Ok(())
        }
        Setting::Entity(name, _) => known.declared.add(alloc, name),
        Setting::Seed(NodeName::Monitor, _) => {
            known.is_monitor_seeded = true;
            Ok(())
        }
        Setting::Seed(NodeName::Entity(name), _) => known.seeded.add(alloc, name),
        Setting::Modes(client, _) => known.moded.add(alloc, client),
        Setting::Leak(client) => known.leaked.add(alloc, client),
    }
}

/// Whether a line of this form may stand once, and stands already.
pub fn is_spent(known: &Known, form: Head) -> bool
    ensures { result ≡ is_spent known.now form }
{
    match form {
        Head::Setting(SettingForm::Lifetime) => known.has_life,
        Head::Setting(SettingForm::AuthLifetime) => known.has_auth_life,
        _ => false,
    }
}

/// Whether a line of this form is too late: a head line behind a line that is none.
pub fn is_late(known: &Known, form: Head) -> bool
    ensures { result ≡ is_late known.now form }
{
    match form {
        Head::Setting(_) => known.has_begun,
        _ => false,
    }
}
