// A session, by its number.
ghost use Rattle.std.specs.Prelude.{◌≤◌};

// A session's number is 1 to 8, and the host chooses it.
#[derive(Clone, Copy, PartialEq, Eq, Debug)]
pub struct Session {
    pub(crate) number: u8,
    ghost least: { 1 ≤ number },
    ghost most: { number ≤ 8 },
}
