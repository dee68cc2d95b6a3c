//! Names of tables.

ghost use Rattle.std.specs.Prelude.{◌≡◌, ◌≤◌, [], length};

use arrayvec::ArrayString;
use std::marker::Model;

/// The name of a table, at most 16 bytes. Contracts see it as the list of its bytes.
#[derive(Debug, Drop)]
pub struct TableName {
    text: ArrayString<16>,
}

impl Model for TableName {
    ghost use Rattle.std.specs.Prelude.{List, ℕ};

    ghost Value = { List ℕ };

    ghost view = { λ a. a.text.bytes };
}

impl TableName {
    /// The name with this text.
    pub fn from_text(text: &str) -> TableName
        requires { length text.now ≤ 16 }
        ensures { result ≡ text.now }
    {
        let mut name = ArrayString::new();
        let _ = name.try_push_str(text);
        TableName { text: name }
    }

    pub fn len(&self) -> usize
        ensures { result ≡ length self.now }
    {
        self.text.as_str().len()
    }

    pub fn as_str(&self) -> &str
        ensures { result.now ≡ self.now }
    {
        self.text.as_str()
    }

    /// An equal name, made without memory.
    pub fn copy(&self) -> TableName
        ensures { result ≡ self.now }
    {
        TableName { text: self.text }
    }
}

impl Default for TableName {
    ghost use Rattle.std.specs.Prelude.{◌≡◌, []};

    ghost is_default = { λ name. name ≡ [] };

    fn default() -> TableName {
        TableName {
            text: ArrayString::new(),
        }
    }
}
