// One task from start to end: the configuration of a branch switch is read from its image, changed and written again; then
// three refusals, an edit list under each error option with the verdict on what it leaves, and writes of a block while power
// fails.
#![tactic(auto)]

mod devices;
mod edits;

use amend::{Amended, Change, amend};
use config::{Config, Entry};
use fault::Report;
use sample::{IMAGE, Listed, ROWS};
use schema::{Path, Schema};

fn path(node: u8, k1: u32) -> Path {
    Path { node, k1, k2: 0 }
}

fn show_bytes(rt: &impl Print, bytes: &[u8]) -> anyhow::Result<()> {
    for line in bytes.chunks(16) {
        print!(rt; " ")?;
        for byte in line {
            print!(rt; " {:02x}", *byte)?;
        }
        println!(rt)?;
    }
    Ok(())
}

fn show_refusal(rt: &impl Print, what: &str, report: Report) -> anyhow::Result<()> {
    println!(rt; "{what}: no {report}")?;
    Ok(())
}

fn show_amended(rt: &impl Print, amended: Amended) -> anyhow::Result<()> {
    if let Some(entry) = amended.taken {
        println!(rt; "taken out {entry}")?;
    }
    print!(rt; "{}", Listed(&amended.config))?;
    let length = amended.length.min(769);
    println!(rt; "image of {length} bytes")?;
    show_bytes(rt, &amended.image[0..length])
}

fn change(rt: &impl Print, schema: &Schema, config: Config) -> anyhow::Result<()> {
    let put = Entry {
        path: path(3, 0),
        value: 4,
    };
    println!(rt; "put in {put}, take out 2 4 0")?;
    let gone = path(2, 4);
    match amend(schema, config, Change { put, gone }) {
        Ok(amended) => show_amended(rt, amended),
        Err(fault) => show_refusal(rt, "change", fault.report(put.path)),
    }
}

fn refusals(rt: &impl Print, schema: &Schema) -> anyhow::Result<()> {
    let mut rows = ROWS;
    rows[1].parent = 3;
    if let Err(fault) = Schema::check(&rows) {
        show_refusal(rt, "schema with a leaf as parent", fault.report())?;
    }
    if let Err(fault) = Config::read(schema, &IMAGE[0..32]) {
        show_refusal(rt, "image that is a byte short", fault.report())?;
    }
    let mtu = path(2, 4);
    if let Err(fault) = schema.check_entry(mtu, 1501) {
        show_refusal(rt, "MTU of 1501", fault.report(mtu))?;
    }
    Ok(())
}

fn run<R: Print + AllocGlobal>(rt: &R) -> anyhow::Result<()> {
    let schema = match Schema::check(&ROWS) {
        Ok(schema) => schema,
        Err(fault) => return show_refusal(rt, "schema", fault.report()),
    };
    let config = match Config::read(&schema, &IMAGE) {
        Ok(config) => config,
        Err(fault) => return show_refusal(rt, "image", fault.report()),
    };
    print!(rt; "configuration\n{}", Listed(&config))?;
    change(rt, &schema, config)?;
    refusals(rt, &schema)?;
    edits::show_edits(rt, &schema, config)?;
    devices::show_devices(rt)
}

fn main(rt: HostRuntime) -> anyhow::Result<()> {
    run(&rt)
}
