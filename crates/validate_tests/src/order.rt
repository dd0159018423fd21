// Two validators as one.
ghost use Rattle.std.specs.Prelude.{Err};
ghost use Rattle.validate.specs.declared.broken.Rule.TheVariants.{ReferenceDangling};

use crate::support::{answer, entry, no, path, yes};
use config::Config;
use fault::Report;
use schema::{Path, Range};
use std::test::Fail;
use validate::{Both, Bound, Broken, Required, Rule, Validator};

// Always says no, which is lawful.
#[derive(Clone, Copy)]
struct Never;

#[cfg(test)]
impl Validator for Never {
    ghost verdict = { λ _ _. Err (record { rule = ReferenceDangling; path = record { node = 8; k1 = 7; k2 = 6 } }) };

    fn check(&self, _config: &Config) -> Result<(), Broken> {
        Err(Broken {
            rule: Rule::ReferenceDangling,
            path: Path {
                node: 8,
                k1: 7,
                k2: 6,
            },
        })
    }
}

#[test]
fn the_first_no(rt: HostRuntime) -> Result<(), Fail> {
    let first = Bound {
        path: path(1, 1, 0),
        values: Range { lo: 0, hi: 0 },
    };
    let second = Bound {
        path: path(2, 0, 0),
        values: Range { lo: 3, hi: 3 },
    };
    let first = Required::new(&[first])?;
    let second = Required::new(&[second])?;
    let mut config = Config::empty();
    assert_eq!(rt; answer(&Both { first, second }, &config), no(4, 1, 1, 0));
    assert_eq!(rt;
        answer(
            &Both {
                first: second,
                second: first,
            },
            &config,
        ),
        no(4, 2, 0, 0)
    );
    assert_eq!(rt;
        answer(
            &Both {
                first: Never,
                second,
            },
            &config,
        ),
        no(2, 8, 7, 6)
    );
    assert!(rt; config.put(entry(1, 1, 0, 0)).is_ok());
    assert_eq!(rt; answer(&Both { first, second }, &config), no(4, 2, 0, 0));
    assert!(rt; config.put(entry(2, 0, 0, 3)).is_ok());
    assert_eq!(rt; answer(&Both { first, second }, &config), yes());
    assert_eq!(rt;
        answer(
            &Both {
                first,
                second: Never,
            },
            &config,
        ),
        no(2, 8, 7, 6)
    );
    Ok(())
}
