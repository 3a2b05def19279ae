//! What the options are set to.

ghost use Rattle.std.specs.Prelude.{◌≡◌, map};
ghost use Rattle.std.specs.Option.{option_or};
ghost use Rattle.dt_words.specs.Settings as meant;
ghost use Rattle.dt_words.specs.View.{role_seen, setting_seen, value_seen};

use crate::roles::Role;

/// The value of the last word that sets one option or the other, and whether it is the first one.
pub fn last_setting<'a>(roles: &[Role<'a>], name: &str, other: &str) -> Option<(bool, &'a str)>
    ensures { setting_seen result ≡ meant.last_setting name.now other.now (map role_seen roles.now) }
{
    let mut last = None;
    for role in roles {
        last = later(setting_in(*role, name, other), last);
    }
    last
}

fn later<'a>(
    now: Option<(bool, &'a str)>,
    before: Option<(bool, &'a str)>,
) -> Option<(bool, &'a str)>
    ensures { setting_seen result ≡ option_or (setting_seen now.entry) (setting_seen before.entry) }
{
    match now {
        Some(setting) => Some(setting),
        None => before,
    }
}

fn setting_in<'a>(role: Role<'a>, name: &str, other: &str) -> Option<(bool, &'a str)>
    ensures { setting_seen result ≡ meant.setting_in name.now other.now (role_seen role.entry) }
{
    match role {
        Role::Sets(row, text) => {
            if row.name == name {
                Some((true, text))
            } else if row.name == other {
                Some((false, text))
            } else {
                None
            }
        }
        _ => None,
    }
}

/// The last value of an option.
pub fn last_value<'a>(roles: &[Role<'a>], name: &str) -> Option<&'a str>
    ensures { value_seen result ≡ meant.last_value name.now (map role_seen roles.now) }
{
    match last_setting(roles, name, name) {
        Some((_, text)) => Some(text),
        None => None,
    }
}

/// Whether an option is set.
pub fn is_set(roles: &[Role<'_>], name: &str) -> bool
    ensures { result ≡ meant.is_set name.now (map role_seen roles.now) }
{
    last_value(roles, name).is_some()
}
