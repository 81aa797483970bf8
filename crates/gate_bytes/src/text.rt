ghost use Rattle.std.specs.Prelude.{◌≡◌, List, ℕ, string_bytes, ◌==◌};
ghost use Rattle.std.specs.Cmp.Lexicographic.{pointwise, lists_per, lists_equiv};
ghost use Rattle.std.specs.Cmp.{partial_equiv_from_equiv, nat_eq_equiv};
ghost use Rattle.std.proofs.lemmas.Slice.Eq.{bytes_eq-Decides};

use crate::copied::Copied;
use crate::exact::Exact;
use crate::memory::Memory;
use std::alloc::Global;
use std::marker::Model;

/// A text that is kept in a value: contracts see its bytes, in UTF-8.
#[derive(Debug, Drop)]
pub struct Text {
    text: String,
}

impl Model for Text {
    ghost Value = { List ℕ };

    ghost view = { λ t. string_bytes t.text };
}

impl Text {
    pub fn from_string(text: String) -> Text
        ensures { result ≡ string_bytes text }
    {
        Text { text }
    }

    pub fn as_str(&self) -> &str
        ensures { result.now ≡ self.now }
    {
        self.text.as_str()
    }
}

impl PartialEq for Text {
    ghost eq = { λ a b. pointwise ◌==◌ a b };

    ghost laws = { lists_per (partial_equiv_from_equiv nat_eq_equiv) };

    fn eq(&self, other: &Text) -> bool {
        self.as_str() == other.as_str()
    }
}

impl Eq for Text {
    ghost laws = { lists_equiv nat_eq_equiv };
}

impl Exact for Text {
    ghost exact = { λ a b. bytes_eq-Decides a b };
}

impl Copied for Text {
    fn copy(&self, alloc: Global) -> Result<Text, Memory> {
        Ok(Text {
            text: String::from_str(alloc, self.text.as_str())?,
        })
    }
}
