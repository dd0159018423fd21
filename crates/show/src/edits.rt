// An edit list under each error option, and the verdict on what it leaves.
use config::Config;
use edit::{EditList, ErrorOption, edit};
use sample::Listed;
use schema::Schema;
use validate::{SchemaRules, Validator};

// Create interface 5, create it again, and merge its MTU of 1500.
const LIST: [u8; 49] = [
    3, 3, 1, 0, 0, 0, 0, 0, 5, 0, 0, 0, 0, 0, 0, 0, 0, 3, 1, 0, 0, 0, 0, 0, 5, 0, 0, 0, 0, 0, 0, 0,
    0, 1, 2, 0, 0, 0, 0, 0, 5, 0, 0, 0, 0, 0, 0, 5, 220,
];

fn show_option(
    rt: &impl Print,
    schema: &Schema,
    before: Config,
    list: &EditList,
    option: ErrorOption,
) -> anyhow::Result<()> {
    let number = option as u32;
    let mut config = before;
    match edit(schema, &mut config, list, option) {
        Ok(()) => println!(rt; "edit with option {number}: ok")?,
        Err(fault) => println!(rt; "edit with option {number}: no {}", fault.report())?,
    }
    print!(rt; "{}", Listed(&config))?;
    let rules = SchemaRules { schema: *schema };
    match rules.check(&config) {
        Ok(()) => println!(rt; "  valid")?,
        Err(broken) => println!(rt; "  not valid: no {}", broken.report())?,
    }
    Ok(())
}

pub(crate) fn show_edits(rt: &impl Print, schema: &Schema, config: Config) -> anyhow::Result<()> {
    match EditList::read(&LIST) {
        Ok(list) => {
            for option in [
                ErrorOption::Stop,
                ErrorOption::Continue,
                ErrorOption::Rollback,
            ] {
                show_option(rt, schema, config, &list, option)?;
            }
        }
        Err(fault) => println!(rt; "edit list: no {}", fault.report())?,
    }
    Ok(())
}
