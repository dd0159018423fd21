// Cuts replacements and recoveries of the store at every byte and at every access, and prints how many left the old
// configuration and how many the new; then each way in which stored blocks are at fault.
#![tactic(auto)]

mod blocks;
mod bytes;
mod edges;
mod faulty;
mod kinds;
mod outcomes;
mod pairs;
mod rule;
mod show;
mod trial;

use crate::bytes::sweep_bytes;
use crate::edges::{formats, small, stored};
use crate::faulty::{damaged, headers, images, mixed};
use crate::kinds::{Kind, Side};
use crate::outcomes::sweep_scripted;
use crate::pairs::{pairs, schema};
use schema::Schema;

const KINDS: [Kind; 6] = [
    Kind::One(Side::Image),
    Kind::One(Side::Flash),
    Kind::Mirror(Side::Image, Side::Image),
    Kind::Mirror(Side::Image, Side::Flash),
    Kind::Mirror(Side::Flash, Side::Image),
    Kind::Mirror(Side::Flash, Side::Flash),
];

fn cuts(rt: &HostRuntime, schema: &Schema) -> anyhow::Result<()> {
    for pair in pairs() {
        for kind in KINDS {
            sweep_bytes(rt, kind, schema, &pair)?;
        }
        sweep_scripted(rt, schema, &pair)?;
    }
    Ok(())
}

fn rest(rt: &HostRuntime, schema: &Schema) -> anyhow::Result<()> {
    let [_, pair, _] = pairs();
    formats(rt, schema, &pair, Side::Image)?;
    formats(rt, schema, &pair, Side::Flash)?;
    stored(rt, schema, &pair)?;
    headers(rt, schema)?;
    damaged(rt, schema)?;
    images(rt, schema)?;
    mixed(rt, schema)?;
    small(rt, schema, &pair)
}

fn run(rt: &HostRuntime) -> anyhow::Result<()> {
    let Ok(schema) = schema() else {
        println!(rt; "schema refused")?;
        return Ok(());
    };
    cuts(rt, &schema)?;
    rest(rt, &schema)
}

fn main(rt: HostRuntime) -> anyhow::Result<()> {
    run(&rt)
}
