// The numbers of sessions and of datastores.
ghost use Rattle.std.specs.Prelude.{◌≡◌, ◌-◌, ◌<◌, is_ok};
ghost use Rattle.fault.specs.Codes.{Named};
ghost use Rattle.session.specs.Numbers.{datastore_number, is_datastore, is_session, number_of};

use crate::session::Session;

// A number that is no session's.
#[derive(Clone, Copy, PartialEq, Eq, Debug)]
pub struct UnknownSession(pub u32);

// A number that is no datastore's.
#[derive(Clone, Copy, PartialEq, Eq, Debug)]
pub struct UnknownDatastore(pub u32);

// The session of this number.
impl TryFrom<u32> for Session {
    type Error = UnknownSession;

    ghost try_from_gives = { λ n r. Named number_of (λ e. e.0) n r × (is_ok r ≡ is_session n) };

    fn try_from(number: u32) -> Result<Self, UnknownSession> {
        match number {
            1..=8 => Ok(Session {
                number: number as u8,
            }),
            _ => Err(UnknownSession(number)),
        }
    }
}

impl Session {
    // A method and no From, which is no plainer: the conversion is a cast alone.
    pub fn number(self) -> u32
        ensures { result ≡ number_of self }
    {
        u32::from(self.number)
    }

    // The session's place among the eight.
    pub(crate) fn place(self) -> usize
        ensures is { result ≡ number_of self - 1 }
        ensures within { result < 8 }
    {
        usize::from(self.number) - 1
    }
}

// What a lock is held on.
#[derive(Clone, Copy, PartialEq, Eq, Debug)]
pub enum Datastore {
    Running = 1,
    Candidate = 2,
}

// The datastore of this number.
impl TryFrom<u32> for Datastore {
    type Error = UnknownDatastore;

    ghost try_from_gives = { λ n r. Named datastore_number (λ e. e.0) n r × (is_ok r ≡ is_datastore n) };

    fn try_from(number: u32) -> Result<Self, UnknownDatastore> {
        match number {
            1 => Ok(Datastore::Running),
            2 => Ok(Datastore::Candidate),
            _ => Err(UnknownDatastore(number)),
        }
    }
}

impl Datastore {
    // A method and no From, which is no plainer: the conversion is the cast alone.
    pub fn number(self) -> u32
        ensures { result ≡ datastore_number self }
    {
        self as u32
    }
}
