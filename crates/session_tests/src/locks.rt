// Sessions and their locks, call by call.
use super::given::{number, session};
use session::{Datastore, Session, Sessions, UnknownDatastore, UnknownSession};
use std::process::Abort;
use std::test::Fail;

#[test]
fn session_numbers(rt: HostRuntime) -> Result<(), Fail> {
    for n in 1..=8 {
        assert_eq!(rt; session(n)?.number(), n);
    }
    for n in [0, 9, 257] {
        assert_eq!(rt; Session::try_from(n), Err(UnknownSession(n)));
    }
    let (one, eight) = (session(1)?, session(8)?);
    assert!(rt; one == one && one != eight);
    Ok(())
}

#[test]
fn datastore_numbers(rt: HostRuntime) -> Result<(), Fail> {
    for n in 1..=2 {
        assert_eq!(rt; datastore(n)?.number(), n);
    }
    for n in [0, 3, 257] {
        assert_eq!(rt; Datastore::try_from(n), Err(UnknownDatastore(n)));
    }
    Ok(())
}

fn datastore(number: u32) -> Result<Datastore, Fail> {
    Datastore::try_from(number).map_err(|_| Fail::new("no such datastore"))
}

// A call by its numbers: session, and datastore.
#[derive(Clone, Copy)]
enum Call {
    Open(u32),
    Close(u32),
    Lock(u32, u32),
    Unlock(u32, u32),
}

// A call, and then the sessions that are open, and who holds running and candidate, 0 for nobody.
type Case = (Call, [u32; 2], (u32, u32));

fn perform(sessions: &mut Sessions, call: Call) -> Result<(), Fail> {
    match call {
        Call::Open(s) => sessions.open(session(s)?),
        Call::Close(s) => sessions.close(session(s)?),
        Call::Lock(s, d) => sessions.lock(session(s)?, datastore(d)?),
        Call::Unlock(s, d) => sessions.unlock(session(s)?, datastore(d)?),
    }
    Ok(())
}

// Whether a session is open, holds a lock, and is kept out by it.
fn told(sessions: &Sessions, by: Session, on: Datastore) -> (bool, bool, bool) {
    (
        sessions.is_open(by),
        sessions.holds(by, on),
        sessions.is_locked_elsewhere(by, on),
    )
}

fn hold(
    rt: &impl Abort,
    sessions: &Sessions,
    open: [u32; 2],
    held: u32,
    on: Datastore,
) -> Result<(), Fail> {
    assert_eq!(rt; number(sessions.holder(on)), held);
    assert_eq!(rt; sessions.is_locked(on), held > 0);
    for n in 1..=8 {
        let by = session(n)?;
        let expected = (open.contains(&n), n == held, held > 0 && n != held);
        assert_eq!(rt; told(sessions, by, on), expected);
    }
    Ok(())
}

const CALLS: [Case; 15] = [
    (Call::Lock(1, 1), [0, 0], (0, 0)),
    (Call::Open(1), [1, 0], (0, 0)),
    (Call::Open(8), [1, 8], (0, 0)),
    (Call::Lock(2, 1), [1, 8], (0, 0)),
    (Call::Lock(1, 1), [1, 8], (1, 0)),
    (Call::Lock(8, 2), [1, 8], (1, 8)),
    (Call::Unlock(8, 1), [1, 8], (1, 8)),
    (Call::Unlock(1, 2), [1, 8], (1, 8)),
    (Call::Unlock(8, 2), [1, 8], (1, 0)),
    (Call::Lock(1, 2), [1, 8], (1, 1)),
    (Call::Close(8), [1, 0], (1, 1)),
    (Call::Unlock(1, 1), [1, 0], (0, 1)),
    (Call::Lock(1, 1), [1, 0], (1, 1)),
    (Call::Close(1), [0, 0], (0, 0)),
    (Call::Open(1), [1, 0], (0, 0)),
];

#[test]
fn calls(rt: HostRuntime) -> Result<(), Fail> {
    let mut sessions = Sessions::none();
    for (call, open, (running, candidate)) in CALLS {
        perform(&mut sessions, call)?;
        hold(&rt, &sessions, open, running, Datastore::Running)?;
        hold(&rt, &sessions, open, candidate, Datastore::Candidate)?;
    }
    Ok(())
}
