//! A list of variables that are set on the command line.

ghost use Rattle.std.specs.Prelude.{◌≡◌, ◌++◌, ◌∷◌, [], IfOk};

use spk_script::Setting;
use std::alloc::{AllocError, Global};
use std::marker::Model;

/// Settings in their order, with a name as often as it was given.
#[derive(Debug, Drop)]
pub struct Settings {
    settings: Vec<Setting>,
}

impl Model for Settings {
    ghost use Rattle.std.specs.Prelude.{List};
    ghost use Rattle.spk_script.specs.declared.setting.Setting.{Setting};

    ghost Value = { List Setting };

    ghost view = { λ s. s.settings.items };
}

impl Settings {
    /// No settings.
    pub fn new(alloc: Global) -> Settings
        ensures { result ≡ [] }
    {
        Settings {
            settings: Vec::new(alloc),
        }
    }

    /// Puts one more at the end.
    pub fn push(&mut self, setting: Setting) -> Result<(), AllocError>
        ensures { IfOk result (λ _. self.new ≡ self.old ++ setting ∷ []) }
    {
        self.settings.push(setting)?;
        Ok(())
    }

    /// The settings as a slice.
    pub fn as_slice(&self) -> &[Setting]
        ensures { result.now ≡ self.now }
    {
        &self.settings
    }
}
