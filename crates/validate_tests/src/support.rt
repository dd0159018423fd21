// What the tests share.
use config::{Config, Entry};
use fault::Report;
use schema::Path;
use validate::Validator;

pub(crate) fn path(node: u8, k1: u32, k2: u32) -> Path {
    Path { node, k1, k2 }
}

pub(crate) fn entry(node: u8, k1: u32, k2: u32, value: u32) -> Entry {
    Entry {
        path: path(node, k1, k2),
        value,
    }
}

// Eight zeros for yes.
pub(crate) fn answer<V: Validator>(validator: &V, config: &Config) -> Report {
    match validator.check(config) {
        Ok(()) => Report::plain(0),
        Err(broken) => broken.report(),
    }
}

pub(crate) fn yes() -> Report {
    Report::plain(0)
}

// Refusal 29 by a rule at a path.
pub(crate) fn no(rule: u32, node: u32, k1: u32, k2: u32) -> Report {
    Report {
        number: 29,
        layer: 3,
        cause: rule,
        item: 0,
        kept: 0,
        node,
        k1,
        k2,
    }
}
