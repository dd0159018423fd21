// How sessions are opened and closed, and what they lock.
ghost use Rattle.session.specs.Kept.{holder_open};
ghost use Rattle.session.specs.Locks.{closed, holder, holds, is_locked, is_open, locked, locked_elsewhere, nobody, opened, unlocked, with_holder};
ghost use Rattle.session.specs.Meaning.{held_of};
ghost use Rattle.session.specs.Numbers.{datastore_number, number_of, who};
ghost use Rattle.std.specs.Prelude.{◌≡◌, if◌then◌else◌, None, true, nat_eq};

use crate::numbers::Datastore;
use crate::session::Session;
use crate::sessions::Sessions;

// Who holds a lock once the session has released it.
fn without(held: Option<Session>, session: Session) -> Option<Session>
    ensures { result ≡ (if nat_eq (who held) (number_of session) then None else held) }
{
    held.filter(|by| *by != session)
}

impl Sessions {
    // No session is open, and nothing is locked.
    pub fn none() -> Self
        ensures { held_of result ≡ nobody }
    {
        Sessions {
            open: [false; 8],
            running: None,
            candidate: None,
        }
    }

    pub fn is_open(&self, session: Session) -> bool
        ensures { result ≡ is_open (held_of self.now) (number_of session) }
    {
        self.open[session.place()]
    }

    // The session is open from now on.
    pub fn open(&mut self, session: Session)
        ensures { held_of self.new ≡ opened (held_of self.old) (number_of session) }
    {
        let place = session.place();
        self.open[place] = true;
    }

    // The session is not open from now on, and its locks are released.
    pub fn close(&mut self, session: Session)
        ensures { held_of self.new ≡ closed (held_of self.old) (number_of session) }
    {
        let mut open = self.open;
        open[session.place()] = false;
        *self = Sessions {
            open,
            running: without(self.running, session),
            candidate: without(self.candidate, session),
        };
    }

    // The session that holds the lock of a datastore.
    pub fn holder(&self, datastore: Datastore) -> Option<Session>
        ensures { who result ≡ holder (held_of self.now) (datastore_number datastore) }
    {
        match datastore {
            Datastore::Running => self.running,
            Datastore::Candidate => self.candidate,
        }
    }

    // A session holds the lock of a datastore.
    pub fn is_locked(&self, datastore: Datastore) -> bool
        ensures { result ≡ is_locked (held_of self.now) (datastore_number datastore) }
    {
        self.holder(datastore).is_some()
    }

    // This session holds the lock of a datastore.
    pub fn holds(&self, session: Session, datastore: Datastore) -> bool
        ensures { result ≡ holds (held_of self.now) (number_of session) (datastore_number datastore) }
    {
        self.holder(datastore) == Some(session)
    }

    // A session other than this one holds the lock of a datastore.
    pub fn is_locked_elsewhere(&self, session: Session, datastore: Datastore) -> bool
        ensures { result ≡ locked_elsewhere (held_of self.now) (number_of session) (datastore_number datastore) }
    {
        self.is_locked(datastore) && !self.holds(session, datastore)
    }

    // The lock of a datastore has this holder from now on.
    fn set_holder(&mut self, datastore: Datastore, holder: Option<Session>)
        requires { holder_open self.old.open holder ≡ true }
        ensures { held_of self.new ≡ with_holder (held_of self.old) (datastore_number datastore) (who holder) }
    {
        match datastore {
            Datastore::Running => self.running = holder,
            Datastore::Candidate => self.candidate = holder,
        }
    }

    // An open session becomes the holder of a lock. For a session that is not open nothing changes.
    pub fn lock(&mut self, session: Session, datastore: Datastore)
        ensures { held_of self.new ≡ locked (held_of self.old) (number_of session) (datastore_number datastore) }
    {
        if self.is_open(session) {
            self.set_holder(datastore, Some(session));
        }
    }

    // A lock that the session holds is released. Without it nothing changes.
    pub fn unlock(&mut self, session: Session, datastore: Datastore)
        ensures { held_of self.new ≡ unlocked (held_of self.old) (number_of session) (datastore_number datastore) }
    {
        if self.holds(session, datastore) {
            self.set_holder(datastore, None);
        }
    }
}
