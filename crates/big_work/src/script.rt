//! Makes the scripts of numbers.
ghost use Rattle.std.specs.Prelude.{◌≡◌, ℕ, ◌++◌, ◌≤◌, ◌<◌, ◌^◌, length, map, sum_by, IfOk};
ghost use Rattle.std.specs.List.{range_with_len};
ghost use Rattle.std.specs.Fmt.{decimal};
ghost use Rattle.lattice_laws.specs.Spelling.{IsSpelled};
ghost use Rattle.mail_contract.specs.Scrambled.{draw_of, next_state};
ghost use Rattle.placement.specs.Config.{placed};
ghost use Rattle.session_known.specs.Script.{IsValidScript};
ghost use Rattle.big_work.specs.Big.{command_line, command_lines, command_state, drawn_line, key_kind, key_place, payload_of, script_of, session_level, session_plans, state_after};

use basic_lattices::Word;
use composed_value::{Kind, Payload};
use lattice_laws::{Items, NoMemory};
use mail_contract::next_of;
use placement::{Config, KeyPlace, Name};
use session_known::{Level, Line, Script, SessionPlan};
use std::alloc::Global;

/// The script of a number: four workers, 32 keys of four kinds with three replicas each, and eight
/// sessions of 400 commands, drawn by a generator that starts with the number. Any number will do.
pub fn big_script(alloc: Global, number: u64) -> Result<Script, NoMemory>
    ensures script { IfOk result (λ script. script ≡ script_of number) }
    ensures valid { IfOk result (λ script. IsValidScript script (placed script.config)) }
    ensures commands { IfOk result (λ script.
        sum_by (λ plan. length plan.lines) script.sessions ≡ 3200) }
{
    Ok(Script {
        version: 1,
        config: Config {
            workers: 4,
            factor: 3,
            keys: key_places(alloc)?,
        },
        round: 4,
        kinds: kinds(alloc)?,
        sessions: plans(alloc, number)?,
    })
}

// ---- keys

/// The keys, without pins.
fn key_places(alloc: Global) -> Result<Items<KeyPlace>, NoMemory>
    ensures { IfOk result (λ keys. keys ≡ map key_place (range_with_len 1 32)) }
{
    let mut keys = Vec::new(alloc);
    for key in 1..=32 {
        keys.push(KeyPlace {
            name: name(alloc, "k", key)?,
            pins: Items::new(Vec::new(alloc)),
            factor: None,
        })?;
    }
    Ok(Items::new(keys))
}

/// Their kinds.
fn kinds(alloc: Global) -> Result<Items<Kind>, NoMemory>
    ensures { IfOk result (λ kinds. kinds ≡ map key_kind (range_with_len 1 32)) }
{
    let mut kinds = Vec::new(alloc);
    for key in 1..=32 {
        kinds.push(kind_of(key))?;
    }
    Ok(Items::new(kinds))
}

/// The kind of a key: four kinds take turns.
fn kind_of(key: u16) -> Kind
    requires { 1 ≤ key }
    ensures { result ≡ key_kind key }
{
    match (key - 1) % 4 {
        0 => Kind::Max,
        1 => Kind::Or,
        2 => Kind::Set,
        _ => Kind::Map,
    }
}

// ---- sessions

/// The sessions, made in order.
fn plans(alloc: Global, number: u64) -> Result<Items<SessionPlan>, NoMemory>
    ensures { IfOk result (λ plans. plans ≡ session_plans 1 8 number) }
{
    let mut generator = Generator { state: number };
    let mut plans = Vec::new(alloc);
    for session in 1..=8 {
        let level = level_of(session);
        plans.push(SessionPlan {
            name: name(alloc, "s", session)?,
            level,
            after: None,
            lines: generator.lines(alloc, level)?,
        })?;
    }
    Ok(Items::new(plans))
}

/// The level of a session: three levels take turns.
fn level_of(session: u16) -> Level
    requires { 1 ≤ session }
    ensures { result ≡ session_level session }
{
    match (session - 1) % 3 {
        0 => Level::Eventual,
        1 => Level::Committed,
        _ => Level::Causal,
    }
}

/// The generator of draws.
#[derive(Drop)]
struct Generator {
    state: u64,
}

impl Generator {
    /// The commands of a session of the level.
    fn lines(&mut self, alloc: Global, level: Level) -> Result<Items<Line>, NoMemory>
        ensures { IfOk result (λ lines. (lines ≡ command_lines level 0 400 self.old.state)
            × (self.new.state ≡ state_after level 0 400 self.old.state)) }
    {
        let mut lines = Vec::new(alloc);
        for command in 0..400 {
            lines.push(self.command(alloc, level, command)?)?;
        }
        Ok(Items::new(lines))
    }

    /// The command of this number, from 0, of a session of the level. Of twenty of a committed session the
    /// first begins a transaction and the last commits it; these draw nothing.
    fn command(&mut self, alloc: Global, level: Level, command: u16) -> Result<Line, NoMemory>
        ensures { IfOk result (λ line. (line ≡ command_line level command self.old.state)
            × (self.new.state ≡ command_state level command self.old.state)) }
    {
        match (level, command % 20) {
            (Level::Committed, 0) => Ok(Line::Begin),
            (Level::Committed, 19) => Ok(Line::Commit),
            _ => {
                let (first, second, third) = (self.draw(), self.draw(), self.draw());
                drawn(alloc, first, second, third)
            }
        }
    }

    /// Takes a step, and draws a number of 31 bits.
    fn draw(&mut self) -> u64
        ensures state { self.new.state ≡ next_state self.old.state }
        ensures draw { result ≡ draw_of self.new.state }
    {
        self.state = next_of(self.state);
        self.state >> 33
    }
}

/// The command of three draws: of four one is a get.
fn drawn(alloc: Global, first: u64, second: u64, third: u64) -> Result<Line, NoMemory>
    ensures { IfOk result (λ line. line ≡ drawn_line first second third) }
{
    let key = (second % 32 + 1) as u16;
    if first % 4 == 3 {
        return Ok(Line::Get { key, worker: None });
    }
    Ok(Line::Put {
        key,
        payload: payload(alloc, kind_of(key), third)?,
    })
}

/// What a put on a key of the kind brings, by a draw.
fn payload(alloc: Global, kind: Kind, draw: u64) -> Result<Payload, NoMemory>
    ensures { IfOk result (λ payload. payload ≡ payload_of kind draw) }
{
    Ok(match kind {
        Kind::Max => Payload::Max(draw % 1_000_000),
        Kind::Or => Payload::On,
        Kind::Set => Payload::Add(word(alloc, "w", draw % 50)?),
        _ => Payload::Field(word(alloc, "f", draw % 10)?, draw / 10 % 1000),
    })
}

// ---- names and words

/// The name of a letter and a number.
fn name(alloc: Global, letter: &str, number: u16) -> Result<Name, NoMemory>
    requires { IsSpelled 1 letter.now }
    ensures { IfOk result (λ name. name ≡ letter.now ++ decimal number) }
{
    let text = format!(in alloc; "{letter}{number}")?;
    let Ok(name) = Name::of(text.as_bytes()) else {
        unreachable!()
    };
    Ok(name)
}

/// The word of a letter and a number.
fn word(alloc: Global, letter: &str, number: u64) -> Result<Word, NoMemory>
    requires { IsSpelled 1 letter.now }
    ensures { IfOk result (λ word. word ≡ letter.now ++ decimal number) }
{
    let text = format!(in alloc; "{letter}{number}")?;
    let Ok(word) = Word::of(text.as_bytes()) else {
        unreachable!()
    };
    Ok(word)
}
