// What one item does.
ghost use Rattle.std.specs.Prelude.{◌≡◌, ◌≤◌, not, length};
ghost use Rattle.config.specs.Configs.{used, with_entry};
ghost use Rattle.edit.specs.Does.{clears, entry_of, first_of, judged, moment, needs_absent, needs_present, put_in, puts, taken_out, under, value_lawful};
ghost use Rattle.edit.specs.Applied.{Applied};
ghost use Rattle.schema.specs.Nodes.{nodes};

use crate::faults::ItemFault;
use crate::item::{Item, Operation};
use config::{Choice, Config, Entry};
use schema::{Node, Path, PathFault, Schema};

impl Operation {
    fn puts(self) -> bool
        ensures { result ≡ puts self }
    {
        matches!(
            self,
            Operation::Merge | Operation::Replace | Operation::Create
        )
    }

    fn clears(self) -> bool
        ensures { result ≡ clears self }
    {
        matches!(
            self,
            Operation::Replace | Operation::Delete | Operation::Remove
        )
    }

    fn needs_absent(self) -> bool
        ensures { result ≡ needs_absent self }
    {
        self == Operation::Create
    }

    fn needs_present(self) -> bool
        ensures { result ≡ needs_present self }
    {
        self == Operation::Delete
    }
}

// The path lies under the list entry at the target.
fn is_under(schema: &Schema, target: Path, path: Path) -> bool
    ensures { result ≡ under (nodes schema.now) target path }
{
    // Tried as `is_some_and`: what its closure answers stayed open.
    let Some(list) = schema.around(path) else {
        return false;
    };
    list == target || schema.around(list) == Some(target)
}

// The paths that an operation on a target leaves.
#[derive(Clone, Copy)]
struct Left<'a> {
    schema: &'a Schema,
    operation: Operation,
    target: Path,
}

impl Choice for Left<'_> {
    ghost chosen = { λ s q. not (taken_out (nodes s.schema.now) s.operation s.target q) };

    fn keeps(&self, path: Path) -> bool {
        if !self.operation.clears() {
            return true;
        }
        if is_under(self.schema, self.target, path) {
            return false;
        }
        self.operation.puts() || path != self.target
    }
}

// An operation that puts carries a value of the node, any other 0.
fn value_lawful(operation: Operation, node: Node, value: u32) -> bool
    ensures { result ≡ value_lawful operation node value }
{
    if operation.puts() {
        node.values().has(value)
    } else {
        value == 0
    }
}

// What the configuration has against an item that is lawful in itself.
fn check_moment(
    schema: &Schema,
    config: &Config,
    operation: Operation,
    path: Path,
) -> Result<(), ItemFault>
    ensures { result ≡ first_of (moment (nodes schema.now) (used config.now) operation path) }
{
    let here = config.get(path).is_some();
    if operation.needs_absent() && here {
        return Err(ItemFault::Present);
    }
    if !here && (operation.needs_present() || operation.puts() && !config.holds(schema, path)) {
        return Err(ItemFault::Absent);
    }
    if !here && operation.puts() && config.entries().len() >= 48 {
        return Err(ItemFault::Full);
    }
    Ok(())
}

// The item's operation and node, or its first fault.
#[tactic(auto, unfolding(crate::specs::Does::judged))]
fn judge(schema: &Schema, config: &Config, item: Item) -> Result<(Operation, Node), ItemFault>
    ensures { result ≡ judged (nodes schema.now) (used config.now) item }
{
    let operation = Operation::try_from(item.operation)?;
    let node = schema.check_path(item.path)?;
    if !value_lawful(operation, node, item.value) {
        return Err(ItemFault::Path(PathFault::Value));
    }
    check_moment(schema, config, operation, item.path)?;
    Ok((operation, node))
}

// Puts the item's entry in, unless it is a list entry that is there.
fn put_in(config: &mut Config, node: Node, item: Item, here: bool)
    requires { length (with_entry (used config.old) (entry_of item)) ≤ 48 }
    ensures { used config.new ≡ put_in (used config.old) node item here }
{
    if matches!(node, Node::List(_)) && here {
        return;
    }
    let entry = Entry {
        path: item.path,
        value: item.value,
    };
    config.put(entry).unwrap();
}

// Performs the item on the configuration, or refuses it by its first fault and changes nothing.
pub fn apply(schema: &Schema, config: &mut Config, item: Item) -> Result<(), ItemFault>
    ensures { Applied (nodes schema.now) config.old item config.new result }
{
    let (operation, node) = judge(schema, config, item)?;
    let here = config.get(item.path).is_some();
    let left = Left {
        schema,
        operation,
        target: item.path,
    };
    config.retain(&left);
    if operation.puts() {
        put_in(config, node, item, here);
    }
    Ok(())
}
