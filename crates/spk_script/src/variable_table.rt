//! The variables of a script by their names.

ghost use Rattle.std.specs.Prelude.{◌≡◌, None, Some, IfOk, OnErr};
ghost use Rattle.std.specs.Map.{update};
ghost use Rattle.std.specs.Option.{option_map};
ghost use Rattle.std.specs.Str.{bytes_eq};
ghost use Rattle.spk_script.specs.Tables.{environment_of, Goes};
ghost use Rattle.spk_script.specs.States.{no_variables};

use crate::variable::Variable;
use spk_num::text::Text;
use std::alloc::{AllocError, Global};
use std::collections::BTreeMap;

/// What a step to a variable's next value has come to.
#[derive(Clone, Copy, Debug, PartialEq, Eq)]
pub enum Stepped {
    /// It has its next value.
    Next,
    /// It had none left.
    Exhausted,
    /// Its style has no next value.
    Stays,
    /// No variable has the name.
    Unknown,
}

/// The variables of a script by their names.
#[derive(Debug, Drop)]
pub struct VariableTable {
    variables: BTreeMap<String, Variable>,
}

impl VariableTable {
    /// No variables.
    pub fn new(alloc: Global) -> VariableTable
        ensures { environment_of result ≡ no_variables }
    {
        VariableTable {
            variables: BTreeMap::new(alloc),
        }
    }

    /// The variable with this name.
    pub fn get(&self, name: &str) -> Option<&Variable>
        ensures { option_map (λ variable. variable.now) result ≡ environment_of self.now name.now }
    {
        self.variables.get(name)
    }

    /// Sets the variable with this name, whether there is one or not. When out of memory, all stays as it was.
    pub fn set(&mut self, alloc: Global, name: &str, variable: Variable) -> Result<(), AllocError>
        ensures ok { IfOk result (λ _. environment_of self.new ≡ update bytes_eq (environment_of self.old) name.now (Some variable)) }
        ensures err { OnErr result (environment_of self.new ≡ environment_of self.old) }
    {
        let key = String::from_str(alloc, name)?;
        self.variables.insert(key, variable)?;
        Ok(())
    }

    /// Deletes the variable with this name.
    pub fn remove(&mut self, name: &str)
        ensures { environment_of self.new ≡ update bytes_eq (environment_of self.old) name.now None }
    {
        self.variables.remove(name);
    }

    /// Goes to the next value of the variable with this name.
    pub fn advance(&mut self, name: &str) -> Stepped
        ensures { Goes (environment_of self.old) name.now (environment_of self.new) result }
    {
        let Some(variable) = self.variables.get_mut(name) else {
            return Stepped::Unknown;
        };
        if !variable.has_steps() {
            Stepped::Stays
        } else if variable.advance() {
            Stepped::Next
        } else {
            Stepped::Exhausted
        }
    }
}
