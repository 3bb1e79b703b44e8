//! The lines of a script that are labels.

ghost use Rattle.std.specs.Prelude.{◌≡◌, ℕ, false, if◌then◌else◌, List, Some, None, IfOk, MatchOption};
ghost use Rattle.std.specs.Option.{option_or};
ghost use Rattle.std.specs.Str.{bytes_eq};
ghost use Rattle.spk_script.specs.Commands.Label.{is_label_by, label_place};
ghost use Rattle.spk_script.specs.Tables.{labels_of};

use crate::script::Line;
use spk_num::text::Text;
use std::alloc::{AllocError, Global};
use std::collections::BTreeMap;

/// The name of the label that a line is.
fn label_of(line: &Line) -> Option<&str>
    ensures { MatchOption result ((label : List ℕ) → is_label_by label line.now.words ≡ false)
        (λ name. (label : List ℕ) → is_label_by label line.now.words ≡ bytes_eq name.now label) }
{
    match line.words.as_slice() {
        [command, name] if command.text.as_str() == "label" => Some(name.text.as_str()),
        _ => None,
    }
}

/// The places of the labels of a script by their names.
#[derive(Debug, Drop)]
pub struct Labels {
    places: BTreeMap<String, usize>,
}

impl Labels {
    /// The labels among these lines. Of two with one name the first counts.
    pub fn of(alloc: Global, lines: &[Line]) -> Result<Labels, AllocError>
        ensures { IfOk result (λ labels. (label : List ℕ) → labels_of labels.places label ≡ label_place lines.now label) }
    {
        let mut labels = Labels {
            places: BTreeMap::new(alloc),
        };
        for (place, line) in lines.iter().enumerate() {
            if let Some(name) = label_of(line) {
                labels.put(alloc, name, place)?;
            }
        }
        Ok(labels)
    }

    /// The place of the label with this name.
    pub fn place(&self, label: &str) -> Option<usize>
        ensures { result ≡ labels_of self.now.places label.now }
    {
        self.places.get(label).copied()
    }

    // Puts in a label, unless there is one with its name.
    fn put(&mut self, alloc: Global, name: &str, place: usize) -> Result<(), AllocError>
        ensures { IfOk result (λ _. (label : List ℕ) → labels_of self.new.places label
            ≡ option_or (labels_of self.old.places label) (if bytes_eq name.now label then Some place else None)) }
    {
        if !self.places.contains_key(name) {
            let key = String::from_str(alloc, name)?;
            self.places.insert(key, place)?;
        }
        Ok(())
    }
}
