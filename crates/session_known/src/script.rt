//! What is asked for: keys, sessions, and the command lines of each.
ghost use Rattle.std.specs.Prelude.{◌≡◌, IfOk, length};
ghost use Rattle.placement.specs.Config.{IsOneOf};
ghost use Rattle.composed_value.specs.Keyed.{kind_at};
ghost use Rattle.session_known.specs.Script.{key_name, session_name};

use composed_value::{Kind, Payload};
use lattice_laws::{Items, NoMemory};
use placement::{Config, Name};

/// What a session is promised.
#[derive(Clone, Copy, Debug, PartialEq, Eq)]
pub enum Level {
    /// Puts go out at once, and a get shows what one replica has.
    Eventual,
    /// The same, and puts between begin and commit are held until the commit, and then share one Lamport
    /// number. No reply shows them before; gets do not show held puts, and after the commit another
    /// session may be shown some of them and not yet others.
    Committed,
    /// A reply covers all that the session knows of the key, and each put depends on all that its
    /// session knew.
    Causal,
}

/// A command line of a session. Keys, workers and sessions are numbered from 1.
#[derive(Debug, Drop)]
pub enum Line {
    /// Puts the payload to the key.
    Put { key: u16, payload: Payload },
    /// Gets the key, of the named replica or else of the session's home; a causal session asks its home
    /// first and then the other replicas, and any of them may answer.
    Get { key: u16, worker: Option<u16> },
    /// Gets the key where it counts that many puts of the named session, and all that is known of the
    /// key; it may give up.
    Await { key: u16, session: u16, count: u64 },
    /// Begins a transaction: puts are held from here on.
    Begin,
    /// Ends it, and puts what was held.
    Commit,
    /// Ends it, and drops what was held.
    Abort,
}

impl Line {
    /// An equal line.
    pub fn copy(&self) -> Result<Line, NoMemory>
        ensures { IfOk result (λ copy. copy ≡ self.now) }
    {
        Ok(match self {
            Line::Put { key, payload } => Line::Put {
                key: *key,
                payload: payload.copy()?,
            },
            Line::Get { key, worker } => Line::Get {
                key: *key,
                worker: *worker,
            },
            Line::Await {
                key,
                session,
                count,
            } => Line::Await {
                key: *key,
                session: *session,
                count: *count,
            },
            Line::Begin => Line::Begin,
            Line::Commit => Line::Commit,
            Line::Abort => Line::Abort,
        })
    }
}

/// A session: its name, its level, the earlier session after whose end it begins, if it comes after one, by its number
/// from 1, and its command lines in order.
#[derive(Debug, Drop)]
pub struct SessionPlan {
    pub name: Name,
    pub level: Level,
    pub after: Option<u16>,
    pub lines: Items<Line>,
}

/// A script: its version, 1 or 2, workers and keys, how many requests a worker takes between rounds of gossip, the
/// kinds of the keys, and the sessions, numbered from 1 in order.
#[derive(Debug, Drop)]
pub struct Script {
    pub version: u16,
    pub config: Config,
    pub round: u32,
    pub kinds: Items<Kind>,
    pub sessions: Items<SessionPlan>,
}

impl Script {
    /// The name of the key with this number, from 1 (0 is taken for 1); empty above the last. Takes no
    /// memory.
    pub fn key_name(&self, key: u16) -> &[u8]
        ensures { result.now ≡ key_name self.now key }
    {
        let keys = self.config.keys.as_slice();
        match keys.get(usize::from(key).saturating_sub(1)) {
            Some(place) => place.name.as_bytes(),
            None => &[],
        }
    }

    /// The kind of the key with this number, from 1. Takes no memory.
    pub fn kind_of(&self, key: u16) -> Kind
        requires { IsOneOf (length self.now.kinds) key }
        ensures { result ≡ kind_at self.now.kinds key }
    {
        self.kinds.as_slice()[usize::from(key) - 1]
    }

    /// The name of the session with this number, from 1 (0 is taken for 1); empty above the last. Takes
    /// no memory.
    pub fn session_name(&self, session: u16) -> &[u8]
        ensures { result.now ≡ session_name self.now session }
    {
        let sessions = self.sessions.as_slice();
        match sessions.get(usize::from(session).saturating_sub(1)) {
            Some(plan) => plan.name.as_bytes(),
            None => &[],
        }
    }
}
