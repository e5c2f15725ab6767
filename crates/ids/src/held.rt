ghost use Rattle.std.specs.Prelude.{◌≡◌, ◌≤◌, length};

use arrayvec::ArrayString;
use std::marker::Model;
use texts::Text;

#[derive(Drop)]
enum Kept {
    Short(ArrayString<64>),
    Own(Text),
}

/// UTF-8 text, of at most 64 bytes in the value itself or of its own memory; a contract sees its bytes.
#[derive(Drop)]
pub struct Id {
    kept: Kept,
}

impl Model for Id {
    ghost use Rattle.std.specs.Prelude.{List, ℕ};
    ghost use Rattle.ids.specs.Kept.{bytes_of};

    ghost Value = { List ℕ };

    ghost view = { λ id. bytes_of id.kept };
}

impl Id {
    /// A copy of a text of at most 64 bytes, which takes no memory.
    pub fn of(text: &str) -> Id
        requires { length text.now ≤ 64 }
        ensures { result ≡ text.now }
    {
        let mut short = ArrayString::new();
        short.push_str(text);
        Id {
            kept: Kept::Short(short),
        }
    }

    /// The text itself, which takes no memory.
    pub fn from_text(text: Text) -> Id
        ensures { result ≡ text }
    {
        Id {
            kept: Kept::Own(text),
        }
    }

    /// The text, lent.
    pub fn as_str(&self) -> &str
        ensures { result.now ≡ self.now }
    {
        match &self.kept {
            Kept::Short(text) => text.as_str(),
            Kept::Own(text) => text.as_str(),
        }
    }
}
