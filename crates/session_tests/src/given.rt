// What the tests share.
use session::Session;
use std::test::Fail;

pub(super) fn session(number: u32) -> Result<Session, Fail> {
    Session::try_from(number).map_err(|_| Fail::new("no such session"))
}

// The number of a session, 0 for none.
pub(super) fn number(session: Option<Session>) -> u32 {
    session.map_or(0, Session::number)
}
