ghost use Rattle.std.specs.Prelude.{◌≡◌, ℕ, List, None, Ok};
ghost use Rattle.config_text.specs.declared.settings.Settings as settings;
ghost use Rattle.config_text.specs.Form.{settings_of};
ghost use Rattle.vip_config.specs.Configs.{broken_rule, config_of, parts_of};
ghost use Rattle.vip_config.specs.Rules.{KeepsRules};
ghost use Rattle.vip_config.specs.declared.parts.ConfigParts as parts;

/// A law: settings break no rule exactly where their parts keep the rules. So a text whose members have their form is
/// read by [`crate::Config::read`] exactly where what it gives keeps the rules.
pub fn broken_rules()
    ensures keeps { (s : settings.Settings) → broken_rule s ≡ None → KeepsRules (parts_of s) }
    ensures breaks_none { (s : settings.Settings) → KeepsRules (parts_of s) → broken_rule s ≡ None }
    ensures read { (bytes : List ℕ) (s : settings.Settings) → settings_of bytes ≡ Ok s → KeepsRules (parts_of s)
        → config_of bytes ≡ Ok (parts_of s) }
    ensures given { (bytes : List ℕ) (c : parts.ConfigParts) → config_of bytes ≡ Ok c → KeepsRules c }
{}
