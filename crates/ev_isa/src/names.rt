// Names of the document.

ghost use Rattle.std.specs.Prelude.{◌≡◌, ◌≤◌, length, IsUtf8};

use arrayvec::ArrayString;
use std::marker::Model;

/// A name of the document: at most 31 bytes. Contracts see its bytes.
#[derive(Debug, Drop)]
pub struct Name(ArrayString<31>);

impl Model for Name {
    ghost use Rattle.std.specs.Prelude.{ℕ, List};

    ghost Value = { List ℕ };

    ghost view = { λ n. n.0.bytes };
}

impl Name {
    /// The name with this text.
    pub fn new(text: &str) -> Name
        requires { length text.now ≤ 31 }
        ensures { result ≡ text.now }
    {
        let mut name = ArrayString::new();
        name.push_str(text);
        Name(name)
    }

    /// The name's text.
    pub fn as_str(&self) -> &str
        ensures value { result.now ≡ self.now }
        ensures fits { length result.now ≤ 31 }
    {
        self.0.as_str()
    }
}
