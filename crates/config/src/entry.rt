// An entry of a configuration, and the order of entries.
ghost use Rattle.config.specs.Order.{entry_form, path_sooner};
ghost use Rattle.std.specs.Prelude.{◌≡◌, [], ◌∷◌, Some};
ghost use Rattle.fault.specs.Text.{spaced};
ghost use Rattle.std.proofs.Common.{rules};

use encoding::{Coded, Form};
use schema::Path;
use std::fmt;
use table::Record;

// A path and its value, which is 0 at a list.
#[derive(Clone, Copy, PartialEq, Eq, Debug)]
pub struct Entry {
    pub path: Path,
    pub value: u32,
}

// Entries by their paths: by node, then by k1, then by k2.
impl Record for Entry {
    type Key = Path;

    ghost key = { λ e. e.path };

    ghost less = { path_sooner };

    ghost irreflexive = { Prim.search rules };

    ghost transitive = { Prim.search rules };

    ghost connected = { Prim.search rules };

    fn key_of(&self) -> Path {
        self.path
    }

    fn before(a: Path, b: Path) -> bool {
        a < b
    }
}

// Node, three zero bytes, k1, k2 and value.
impl Coded for Entry {
    ghost form = { entry_form };

    ghost known = { Prim.search rules };

    fn to_form(&self) -> Form {
        let Path { node, k1, k2 } = self.path;
        Form {
            a: node,
            b: 0,
            c: 0,
            d: 0,
            k1,
            k2,
            value: self.value,
        }
    }

    fn from_form(of: Form) -> Option<Entry> {
        if of.b != 0 || of.c != 0 || of.d != 0 {
            return None;
        }
        let path = Path {
            node: of.a,
            k1: of.k1,
            k2: of.k2,
        };
        Some(Entry {
            path,
            value: of.value,
        })
    }
}

// Node, k1, k2 and value, one space between them.
impl fmt::Display for Entry {
    ghost output = { λ e. Some (spaced (e.path.node ∷ e.path.k1 ∷ e.path.k2 ∷ e.value ∷ [])) };

    fn fmt<W: fmt::Write>(&self, f: &mut fmt::Formatter<W>) -> fmt::Result {
        let Path { node, k1, k2 } = self.path;
        let value = self.value;
        write!(f, "{node} {k1} {k2} {value}")
    }
}
