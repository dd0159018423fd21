// A configuration has at most 48 entries.
use super::given::{
    CREATE, DELETE, MERGE, Numbers, REMOVE, REPLACE, Step, entry, has_keys_to, keys_to, perform,
    schema,
};
use std::process::Abort;
use std::test::Fail;

// An item, its refusal number, 0 for none; then the highest key of the outer list's entries, which begin at 2, and the other
// entries.
type Case = (Step, u32, u32, &'static [Numbers]);

// From 47 entries on: a 48th is taken, and a 49th is not. What is there can still be set.
const LEAVES: [Case; 10] = [
    ((CREATE, 1, 48, 0, 0), 0, 48, &[(4, 0, 0, 50)]),
    ((CREATE, 1, 49, 0, 0), 34, 48, &[(4, 0, 0, 50)]),
    ((MERGE, 1, 49, 0, 0), 34, 48, &[(4, 0, 0, 50)]),
    ((REPLACE, 1, 49, 0, 0), 34, 48, &[(4, 0, 0, 50)]),
    ((MERGE, 6, 0, 0, 50), 34, 48, &[(4, 0, 0, 50)]),
    ((MERGE, 5, 48, 0, 70), 34, 48, &[(4, 0, 0, 50)]),
    ((MERGE, 4, 0, 0, 60), 0, 48, &[(4, 0, 0, 60)]),
    ((REPLACE, 4, 0, 0, 51), 0, 48, &[(4, 0, 0, 51)]),
    ((CREATE, 4, 0, 0, 52), 32, 48, &[(4, 0, 0, 51)]),
    ((CREATE, 5, 49, 0, 70), 33, 48, &[(4, 0, 0, 51)]),
];

// From these 48 entries on: what takes out makes place.
const LISTS: [Case; 10] = [
    ((MERGE, 1, 48, 0, 0), 0, 48, &[(5, 48, 0, 70)]),
    ((CREATE, 1, 48, 0, 0), 32, 48, &[(5, 48, 0, 70)]),
    ((REMOVE, 1, 60, 0, 0), 0, 48, &[(5, 48, 0, 70)]),
    ((DELETE, 1, 60, 0, 0), 33, 48, &[(5, 48, 0, 70)]),
    ((REPLACE, 1, 47, 0, 0), 0, 48, &[(5, 48, 0, 70)]),
    ((CREATE, 1, 49, 0, 0), 34, 48, &[(5, 48, 0, 70)]),
    ((REPLACE, 1, 48, 0, 0), 0, 48, &[]),
    ((CREATE, 1, 49, 0, 0), 0, 49, &[]),
    ((REPLACE, 1, 50, 0, 0), 34, 49, &[]),
    ((DELETE, 1, 49, 0, 0), 0, 48, &[]),
];

fn follow(rt: &impl Abort, first: Numbers, last: u32, cases: &[Case]) -> Result<(), Fail> {
    let schema = schema()?;
    let mut config = keys_to(rt, last);
    assert!(rt; config.put(entry(first)).is_ok());
    for &(step, number, last, rest) in cases {
        perform(rt, &schema, &mut config, step, number);
        has_keys_to(rt, &config, last, rest, &step);
    }
    Ok(())
}

#[test]
fn the_last_place(rt: HostRuntime) -> Result<(), Fail> {
    follow(&rt, (4, 0, 0, 50), 47, &LEAVES)?;
    follow(&rt, (5, 48, 0, 70), 48, &LISTS)
}
