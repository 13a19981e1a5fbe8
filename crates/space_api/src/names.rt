//! The names of functions.

ghost use Rattle.std.specs.Prelude.{◌≡◌};

use crate::text::Text;
use std::marker::Model;

/// The functions' names by number. Contracts see them as a list of texts.
#[derive(Debug, Drop)]
pub struct Names {
    list: Vec<Text>,
}

impl Model for Names {
    ghost use Rattle.std.specs.Prelude.{List, ℕ};

    ghost Value = { List (List ℕ) };

    ghost view = { λ n. n.list.items };
}

impl Names {
    /// These names.
    pub fn from_vec(list: Vec<Text>) -> Names
        ensures { result ≡ list.items }
    {
        Names { list }
    }

    /// All of the names, in the order of the functions.
    pub fn as_slice(&self) -> &[Text]
        ensures { result.now ≡ self.now }
    {
        &self.list
    }
}
