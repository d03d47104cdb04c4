//! The form of a line with an example.

ghost use Rattle.std.specs.Prelude.{◌≡◌};
ghost use Rattle.cx_help.specs.line.Forms.{command_form_text, form_text, link_form_text, node_form_text, setting_form_text};

use cx_lines::{Head, LinkForm, NodeForm, SettingForm};
use cx_words::CommandForm;

/// The form of a line with an example.
pub(crate) fn form(form: Option<Head>) -> &'static str
    ensures { result.now ≡ form_text form }
{
    match form {
        None => "",
        Some(Head::Setting(form)) => setting_form(form),
        Some(Head::Submit(form)) => command_form(form),
        Some(Head::Do) => {
            "; its form is: do, and a fetch, login, renew, connect or send line behind it, as in: do login client.a"
        }
        Some(Head::Link(form)) => link_form(form),
        Some(Head::Node(form)) => node_form(form),
    }
}

fn setting_form(form: SettingForm) -> &'static str
    ensures { result.now ≡ setting_form_text form }
{
    match form {
        SettingForm::Lifetime => "; its form is: lifetime SECONDS, as in: lifetime 3600",
        SettingForm::AuthLifetime =>
            "; its form is: auth-lifetime SECONDS, as in: auth-lifetime 43200",
        SettingForm::Entity => {
            "; its form is: entity NAME, and then any number of SERVICE \"CAPS\", as in: entity client.a mon \"allow r\" osd \
            \"allow *\""
        }
        SettingForm::Seed => "; its form is: seed NODE NUMBER, as in: seed client.a 5",
        SettingForm::Modes => "; its form is: modes CLIENT MODES, as in: modes client.a crc,secure",
        SettingForm::Leak => "; its form is: leak CLIENT, as in: leak client.a",
    }
}

fn command_form(form: CommandForm) -> &'static str
    ensures { result.now ≡ command_form_text form }
{
    match form {
        CommandForm::Fetch => "; its form is: fetch DAEMON, as in: fetch osd.0",
        CommandForm::Login =>
            "; its form is: login CLIENT or login CLIENT SERVICES, as in: login client.a osd,mgr",
        CommandForm::Renew => "; its form is: renew CLIENT SERVICES, as in: renew client.a osd,mgr",
        CommandForm::Connect => {
            "; its form is: connect CLIENT DAEMON, or that with lossy behind it, as in: connect client.a osd.0"
        }
        CommandForm::Send => {
            "; its form is: send CLIENT DAEMON ACCESS POOL NAMESPACE OBJECT DATA, as in: send client.a osd.0 write rbd - \
            obj1 6869"
        }
    }
}

fn link_form(form: LinkForm) -> &'static str
    ensures { result.now ≡ link_form_text form }
{
    match form {
        LinkForm::Carry => {
            "; its form is: carry LINK SIDE or carry LINK SIDE BYTES, as in: carry 1 c"
        }
        LinkForm::Lose => "; its form is: lose LINK SIDE, as in: lose 1 c",
        LinkForm::Inject => "; its form is: inject LINK SIDE DATA, as in: inject 1 c 00ff",
        LinkForm::Again => "; its form is: again LINK SIDE PIECE LINK, as in: again 1 c 2 3",
        LinkForm::Cut => "; its form is: cut LINK, as in: cut 1",
    }
}

fn node_form(form: NodeForm) -> &'static str
    ensures { result.now ≡ node_form_text form }
{
    match form {
        NodeForm::Clock => {
            "; its form is: clock SECONDS or clock NODE SECONDS, as in: clock 4599.999999999"
        }
        NodeForm::DropSession => "; its form is: drop DAEMON SESSION, as in: drop osd.0 1",
        NodeForm::Tick => "; its form is: tick NODE, as in: tick osd.0",
        NodeForm::Restart => "; its form is: restart NODE, as in: restart mon",
        NodeForm::FailSave => { "; its form is: failsave old or failsave new, as in: failsave old" }
        NodeForm::Settle => "; its form is: settle, alone",
    }
}
