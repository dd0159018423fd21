// An edit list on a configuration.
ghost use Rattle.std.specs.Prelude.{◌≡◌};
ghost use Rattle.config.specs.Configs.{used};
ghost use Rattle.edit.specs.Does.{does};
ghost use Rattle.edit.specs.Edited.{Edited, Until, fault_report};
ghost use Rattle.edit.specs.Lists.{items};
ghost use Rattle.edit.specs.Options.{performed, through, until};
ghost use Rattle.schema.specs.Nodes.{nodes};

use crate::faults::ItemFault;
use crate::held::EditList;
use crate::one::apply;
use crate::option::ErrorOption;
use config::Config;
use fault::Report;
use schema::{Path, Schema};

// The first refused item: its fault, its position from 1, how many items were kept, and its path.
#[derive(Clone, Copy, PartialEq, Eq, Debug)]
pub struct EditFault {
    pub fault: ItemFault,
    pub item: u32,
    pub kept: u32,
    pub path: Path,
}

// Schema, configuration and list stay parameters: a struct of three references would be made only to be taken apart.

// Performs the items up to the first that is refused, and tells that one, with those before it as kept.
fn perform_until(schema: &Schema, config: &mut Config, list: &EditList) -> Result<(), EditFault>
    ensures left { used config.new ≡ until (does (nodes schema.now)) (used config.old) (items list.now) }
    ensures first { Until (nodes schema.now) (used config.old) (items list.now) result }
{
    for (i, item) in list.items().iter().enumerate() {
        let kept = i as u32;
        apply(schema, config, *item).map_err(|fault| EditFault {
            fault,
            item: kept + 1,
            kept,
            path: item.path,
        })?;
    }
    Ok(())
}

// Performs each item that can be, and tells how many.
fn perform_each(schema: &Schema, config: &mut Config, list: &EditList) -> u32
    ensures left { used config.new ≡ through (does (nodes schema.now)) (used config.old) (items list.now) }
    ensures count { result ≡ performed (does (nodes schema.now)) (used config.old) (items list.now) }
{
    let mut done = 0;
    for item in list.items() {
        if apply(schema, config, *item).is_ok() {
            done += 1;
        }
    }
    done
}

// Performs the edit list by the error option. The first refused item's fault is told.
pub fn edit(
    schema: &Schema,
    config: &mut Config,
    list: &EditList,
    option: ErrorOption,
) -> Result<(), EditFault>
    ensures { Edited (nodes schema.now) option config.old (items list.now) config.new result }
{
    let mut tried = *config;
    let Err(first) = perform_until(schema, &mut tried, list) else {
        *config = tried;
        return Ok(());
    };
    let kept = match option {
        ErrorOption::Stop => {
            *config = tried;
            first.kept
        }
        ErrorOption::Continue => perform_each(schema, config, list),
        ErrorOption::Rollback => 0,
    };
    Err(EditFault { kept, ..first })
}

impl EditFault {
    // The refusal number of the item's fault, with its position, the number of items kept and the item's path. A method and no
    // From: other faults have no report, or need a path for it.
    pub fn report(self) -> Report
        ensures { result ≡ fault_report self }
    {
        let Path { node, k1, k2 } = self.path;
        Report::plain(self.fault.number())
            .in_item(self.item, self.kept)
            .at_path(u32::from(node), k1, k2)
    }
}
