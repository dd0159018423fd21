// One task from start to end: the configuration of a branch switch is stored, replaced by another while power fails, repaired
// while power fails again, and recovered.
#![tactic(auto)]

mod stores;

use config::Config;
use sample::{IMAGE, ROWS};
use schema::Schema;

fn run<R: Print + AllocGlobal>(rt: &R) -> anyhow::Result<()> {
    match Schema::check(&ROWS) {
        Ok(schema) => match Config::read(&schema, &IMAGE) {
            Ok(config) => stores::show_stores(rt, &schema, &config)?,
            Err(fault) => println!(rt; "image: no {}", fault.report())?,
        },
        Err(fault) => println!(rt; "schema: no {}", fault.report())?,
    }
    Ok(())
}

fn main(rt: HostRuntime) -> anyhow::Result<()> {
    run(&rt)
}
