// The rules of a schema.
ghost use Rattle.config.specs.Configs.{used};
ghost use Rattle.schema.specs.Nodes.{nodes};
ghost use Rattle.schema.specs.declared.path.Path.{Path};
ghost use Rattle.std.specs.Prelude.{◌≡◌, Bool, count_by};
ghost use Rattle.validate.specs.Schemas.{crowded, dangling, has_key, in_parent, keyless, list_place, missing, over, schema_verdict, told_at};
ghost use Rattle.validate.specs.Search.{Computes, lower, lowest, lowest_of};

use crate::broken::{Broken, Rule};
use crate::validator::Validator;
use config::{Config, Entry};
use schema::{Node, Path, Schema};

// What a schema asks of a whole configuration. Rule 1: a mandatory leaf is present in every entry of its list, or at the top.
// Rule 2: a leaf with a reference holds the key of a present entry of that list. Rule 3: no list has more entries than its
// maximum inside one parent entry, or at the top.
#[derive(Clone, Copy)]
pub struct SchemaRules {
    pub schema: Schema,
}

// The list around and a path stay two parameters of these tests of one line: a struct of both would be no plainer.

// At the top a leaf has no keys.
fn keyless(parent: Option<u8>, path: Path) -> bool
    ensures { result ≡ keyless parent path }
{
    parent.is_some() || path.k1 == 0 && path.k2 == 0
}

// The path by which a list inside one parent entry, or at the top, is told.
fn list_place(parent: Option<u8>, path: Path) -> bool
    ensures { result ≡ list_place parent path }
{
    path.k2 == 0 && (parent.is_some() || path.k1 == 0)
}

// An entry of the list has this key k1.
fn has_key(config: &Config, list: u8, key: u32) -> bool
    ensures { result ≡ has_key (used config.now) list key }
{
    config.entries().iter().any(|present| present.path.node == list && present.path.k1 == key)
}

// The entry is of the path's list, and inside the same parent entry, if the list stands in one.
fn in_parent(parent: Option<u8>, path: Path, entry: Entry) -> bool
    ensures { result ≡ in_parent parent path entry }
{
    entry.path.node == path.node && (parent.is_none() || entry.path.k1 == path.k1)
}

// How many entries of the path's list stand inside its parent entry, or at the top.
// A `for` over the entries, the form that the project asks for here.
fn count_inside(config: &Config, parent: Option<u8>, path: Path) -> usize
    ensures { result ≡ count_by (in_parent parent path) (used config.now) }
{
    let entries = config.entries();
    let mut count = 0;
    for counted in entries {
        if in_parent(parent, path, *counted) {
            count += 1;
        }
    }
    count
}

// The count passes the maximum, if there is one.
fn over(maximum: Option<u32>, count: usize) -> bool
    ensures { result ≡ over maximum count }
{
    maximum.is_some_and(|most| count > most as usize)
}

// Each function that calls a test asks that it may always be called, as the language wants it of a closure, and says what comes of
// it for the function of paths that the test computes.

// The lowest path so far that passes the test, with one more path.
fn lower<F: Fn(Path) -> bool>(test: &F, so_far: Option<Path>, path: Path) -> Option<Path>
    requires { F.IsAlwaysCallable test.now }
    ensures { (t : Path → Bool) → Computes (F.post test.now) t → result ≡ lower t so_far path }
{
    if !test(path) {
        return so_far;
    }
    Some(so_far.map_or(path, |other| other.min(path)))
}

// The lowest path of this node that passes the test: it has no keys, or those of some entry.
fn lowest_of<F: Fn(Path) -> bool>(test: &F, entries: &[Entry], node: u8) -> Option<Path>
    requires { F.IsAlwaysCallable test.now }
    ensures { (t : Path → Bool) → Computes (F.post test.now) t → result ≡ lowest_of t entries.now node }
{
    let top = Path { node, k1: 0, k2: 0 };
    let mut lowest = lower(test, None, top);
    for keyed in entries {
        let Path { k1, k2, .. } = keyed.path;
        lowest = lower(test, lowest, Path { node, k1, k2 });
    }
    lowest
}

// The lowest path that passes the test. A schema has nodes 1 to 16.
fn lowest<F: Fn(Path) -> bool>(test: &F, entries: &[Entry]) -> Option<Path>
    requires { F.IsAlwaysCallable test.now }
    ensures { (t : Path → Bool) → Computes (F.post test.now) t → result ≡ lowest t entries.now }
{
    (1..17).find_map(|node| lowest_of(test, entries, node))
}

// A schema with the configuration of which its rules are asked.
#[derive(Clone, Copy)]
struct Asked<'a> {
    schema: &'a Schema,
    config: &'a Config,
}

impl Asked<'_> {
    // Rule 1: a mandatory leaf is absent here, and the entry of the list around it is present or it stands at the top.
    fn missing(&self, path: Path) -> bool
        ensures { result ≡ missing (nodes self.now.schema.now) (used self.now.config.now) path }
    {
        match self.schema.node(path.node) {
            Some(Node::Leaf(leaf)) => {
                leaf.mandatory
                    && keyless(leaf.parent, path)
                    && self.config.holds(self.schema, path)
                    && self.config.get(path).is_none()
            }
            _ => false,
        }
    }

    // Rule 2: the leaf here refers to an entry that is absent.
    fn dangling(&self, path: Path) -> bool
        ensures { result ≡ dangling (nodes self.now.schema.now) (used self.now.config.now) path }
    {
        let Some(Node::Leaf(leaf)) = self.schema.node(path.node) else {
            return false;
        };
        match (leaf.reference, self.config.get(path)) {
            (Some(list), Some(entry)) => !has_key(self.config, list, entry.value),
            _ => false,
        }
    }

    // Rule 3: the list has more entries inside one present parent entry, or at the top, than its maximum.
    fn crowded(&self, path: Path) -> bool
        ensures { result ≡ crowded (nodes self.now.schema.now) (used self.now.config.now) path }
    {
        match self.schema.node(path.node) {
            Some(Node::List(list)) => {
                list_place(list.parent, path)
                    && self.config.holds(self.schema, path)
                    && over(list.maximum, count_inside(self.config, list.parent, path))
            }
            _ => false,
        }
    }

    // The rule holds, or the lowest path at which it is broken is told.
    fn check_rule<F: Fn(Path) -> bool>(&self, rule: Rule, broken: F) -> Result<(), Broken>
        requires { F.IsAlwaysCallable broken }
        ensures { (t : Path → Bool) → Computes (F.post broken) t → result ≡ told_at rule (lowest t (used self.now.config.now)) }
    {
        lowest(&broken, self.config.entries()).map_or(Ok(()), |path| Err(Broken { rule, path }))
    }
}

impl Validator for SchemaRules {
    ghost verdict = { λ s es. schema_verdict (nodes s.schema) es };

    fn check(&self, config: &Config) -> Result<(), Broken> {
        let asked = Asked {
            schema: &self.schema,
            config,
        };
        asked.check_rule(Rule::MandatoryMissing, |path| asked.missing(path))?;
        asked.check_rule(Rule::ReferenceDangling, |path| asked.dangling(path))?;
        asked.check_rule(Rule::TooManyEntries, |path| asked.crowded(path))
    }
}
