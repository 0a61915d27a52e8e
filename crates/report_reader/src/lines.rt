//! Reports read line by line.
ghost use Rattle.std.specs.Prelude.{◌≡◌, List, ℕ, ◌+◌, ◌<◌, ◌≤◌, ◌^◌, ◌∷◌, [], ◌++◌, All, false, map, length, decimal, IfOk, IfErr, OnOk, OnErr};
ghost use Rattle.std.specs.List.{AllZip, range_with_len};
ghost use Rattle.placement.specs.Name.{IsName};
ghost use Rattle.session_known.specs.Form.{Fits, IsFinalIn, HasForm, final_places};
ghost use Rattle.placement.specs.Config.{IsOneOf};
ghost use Rattle.session_known.specs.Script.{IsValidSession, MayStand, IsValid, IsValidScript};
ghost use Rattle.report_reader.specs.Cuts.{has_byte};
ghost use Rattle.report_reader.specs.declared.ReportFault.TheVariants.{Form};
ghost use Rattle.report_reader.specs.ReadLines.{Answered, FinalOf, IsFinalAt, answers_dues, session_dues, sessions_dues, finals_dues, report_dues, IsPlaceIn, exact_dues, places_at, replicas_within, IsValidWhere, HasTaken, IsNotNext, HasGotAnswer, HasGotAnswers, HasGotSession, HasGotSessions, HasGotExactly, HasGotFinal, HasGotFinals, HasGotReport, IsPartFault};
ghost use Rattle.report_reader.specs.Reads.{IsReading};
ghost use Rattle.report_lines.specs.Parts.{AreAnswers, place_of};
ghost use Rattle.report_lines.specs.Text.{head_lines, key_words, placed_words, after_words, session_words, bare_line, spaced};

use crate::ReportFault;
use crate::answers::{read_answer, read_final};
use crate::words::cut_at;
use itoa::Buffer;
use lattice_laws::{Items, NoMemory};
use placement::Placement;
use report_lines::{kind_text, level_text};
use session_known::{Answer, FinalCell, Level, Line, Report, Script, SessionPlan};
use std::alloc::Global;
use std::marker::Model;

/// The lines of a text that were not read yet. Contracts see what is left of the text, and the number
/// of the next line, counted from 1.
#[derive(Drop)]
pub(crate) struct Lines<'a> {
    rest: &'a [u8],
    next: u32,
}

impl<'a> Model for Lines<'a> {
    ghost use Rattle.std.specs.Prelude.{List, ℕ};

    ghost Value = { List ℕ × ℕ };

    ghost view = { λ lines. (lines.rest.now, lines.next) };
}

impl<'a> Lines<'a> {
    /// All lines of a text.
    fn new(bytes: &'a [u8]) -> Lines<'a>
        ensures { result ≡ (bytes.now, 1) }
    {
        Lines {
            rest: bytes,
            next: 1,
        }
    }

    /// The next line, without its line feed.
    fn take(&mut self) -> Result<&'a [u8], ReportFault>
        requires { self.old.1 + 1 < 2 ^ 32 }
        ensures line { IfOk result (λ line. self.old.0 ≡ line.now ++ 10 ∷ self.new.0) }
        ensures number { OnOk result (self.new.1 ≡ self.old.1 + 1) }
        ensures within { IfOk result (λ line. has_byte 10 line.now ≡ false) }
        ensures fault { IfErr result (λ fault. fault ≡ Form self.old.1) }
        ensures none { OnErr result (has_byte 10 self.old.0 ≡ false) }
    {
        let Some((line, rest)) = cut_at(self.rest, b'\n') else {
            return Err(ReportFault::Form { line: self.next });
        };
        self.rest = rest;
        self.next += 1;
        Ok(line)
    }

    /// Sees that nothing is left.
    fn end(&self) -> Result<(), ReportFault>
        ensures end { OnOk result (self.now.0 ≡ []) }
        ensures fault { IfErr result (λ fault. (fault ≡ Form self.now.1) × (self.now.0 ≡ [] → ⊥)) }
    {
        if self.rest.is_empty() {
            return Ok(());
        }
        Err(ReportFault::Form { line: self.next })
    }
}

/// Reads the line that is wanted.
fn read_exactly(lines: &mut Lines, wanted: &[u8]) -> Result<(), ReportFault>
    requires room { lines.old.1 + 1 < 2 ^ 32 }
    requires line { has_byte 10 wanted.now ≡ false }
    ensures ok { OnOk result (HasTaken wanted.now lines.old lines.new) }
    ensures fault { IfErr result (λ fault. (fault ≡ Form lines.old.1)
        × IsNotNext wanted.now lines.old.0) }
{
    let number = lines.next;
    if lines.take()? != wanted {
        return Err(ReportFault::Form { line: number });
    }
    Ok(())
}

// ---- the lines before the sessions

/// The replicas of a key among so many workers, ascending.
fn ascending(alloc: Global, workers: u16, replicas: &[u16]) -> Result<Vec<u16>, NoMemory>
    requires { workers ≤ 8 }
    ensures { IfOk result (λ ascending. ascending.items
        ≡ replicas_within replicas.now workers) }
{
    let mut ascending = Vec::new(alloc);
    for i in 0..workers {
        let worker = i + 1;
        if !replicas.contains(&worker) {
            continue;
        }
        ascending.push(worker)?;
    }
    Ok(ascending)
}

/// Adds numbers in decimal digits, each after a space.
fn push_numbers(line: &mut Vec<u8>, numbers: &[u16]) -> Result<(), NoMemory>
    ensures { OnOk result (line.new.items ≡ line.old.items ++ spaced (map decimal numbers.now)) }
{
    for number in numbers {
        let mut buffer = Buffer::new();
        line.extend_from_slice(b" ")?;
        line.extend_from_slice(buffer.format(*number).as_bytes())?;
    }
    Ok(())
}

/// The line of a key that lives at these workers, without its line feed.
fn key_line(alloc: Global, script: &Script, key: u16, workers: &[u16]) -> Result<Vec<u8>, NoMemory>
    requires { IsOneOf (length script.now.kinds) key }
    ensures { IfOk result (λ line. line.items
        ≡ bare_line (key_words script.now key workers.now)) }
{
    let mut line = Vec::new(alloc);
    line.extend_from_slice(b"key ")?;
    line.extend_from_slice(script.key_name(key))?;
    line.extend_from_slice(b" ")?;
    line.extend_from_slice(kind_text(script.kind_of(key)))?;
    line.extend_from_slice(b" on")?;
    push_numbers(&mut line, workers)?;
    Ok(line)
}

/// The lines of the keys.
fn read_keys(
    alloc: Global,
    script: &Script,
    placement: &Placement,
    lines: &mut Lines,
) -> Result<(), ReportFault>
    requires valid { IsValidScript script.now placement.now }
    requires room { lines.old.1 + length script.now.config.keys < 2 ^ 32 }
    ensures got { OnOk result (HasGotExactly script.now
        (map (placed_words script.now) (range_with_len 1 (length script.now.config.keys)))
        lines.old lines.new) }
    ensures fault { IfErr result (IsPartFault script.now
        (exact_dues (map (placed_words script.now)
        (range_with_len 1 (length script.now.config.keys)))) lines.old) }
{
    for i in 0..placement.keys() {
        let key = i + 1;
        let workers = ascending(alloc, script.config.workers, placement.replicas(key))?;
        let line = key_line(alloc, script, key, &workers)?;
        read_exactly(lines, &line)?;
    }
    Ok(())
}

/// The lines before those of the sessions.
fn read_head(
    alloc: Global,
    script: &Script,
    placement: &Placement,
    lines: &mut Lines,
) -> Result<(), ReportFault>
    requires valid { IsValidScript script.now placement.now }
    requires room { lines.old.1 + length (head_lines script.now) < 2 ^ 32 }
    ensures got { OnOk result (HasGotExactly script.now (head_lines script.now)
        lines.old lines.new) }
    ensures fault { IfErr result (IsPartFault script.now
        (exact_dues (head_lines script.now)) lines.old) }
{
    if script.version < 2 {
        read_exactly(lines, b"anna report 1")?;
        return Ok(());
    }
    read_exactly(lines, b"anna report 2")?;
    read_keys(alloc, script, placement, lines)?;
    Ok(())
}

// ---- sessions

/// The line of an answer.
fn read_answer_line(
    alloc: Global,
    script: &Script,
    level: Level,
    line: &Line,
    lines: &mut Lines,
) -> Result<Answer, ReportFault>
    requires valid { IsValidWhere script.now
        (λ table. MayStand script.now table level line.now) }
    requires room { lines.old.1 + 1 < 2 ^ 32 }
    ensures answer { IfOk result (Fits script.now level line.now) }
    ensures got { IfOk result (HasGotAnswer script.now level line.now lines.old lines.new) }
    ensures fault { IfErr result (IsPartFault script.now (Answered level line.now ∷ []) lines.old) }
{
    let number = lines.next;
    let text = lines.take()?;
    let Some(answer) = read_answer(alloc, script, level, line, text)? else {
        return Err(ReportFault::Form { line: number });
    };
    Ok(answer)
}

/// The answers to the lines of a session of the level.
fn read_answers(
    alloc: Global,
    script: &Script,
    level: Level,
    commands: &[Line],
    lines: &mut Lines,
) -> Result<Items<Answer>, ReportFault>
    requires valid { IsValidWhere script.now
        (λ table. All (MayStand script.now table level) commands.now) }
    requires room { lines.old.1 + length commands.now < 2 ^ 32 }
    ensures answers { IfOk result (AllZip (Fits script.now level) commands.now) }
    ensures got { IfOk result (HasGotAnswers script.now level commands.now lines.old lines.new) }
    ensures fault { IfErr result (IsPartFault script.now
        (answers_dues level commands.now) lines.old) }
{
    let mut answers = Items::new(Vec::new(alloc));
    for line in commands {
        answers.push(read_answer_line(alloc, script, level, line, lines)?)?;
    }
    Ok(answers)
}

/// Adds the session that a session comes after, where it comes after one.
fn push_after(line: &mut Vec<u8>, script: &Script, after: Option<u16>) -> Result<(), NoMemory>
    ensures { OnOk result (line.new.items
        ≡ line.old.items ++ spaced (after_words script.now after)) }
{
    match after {
        None => Ok(()),
        Some(session) => {
            line.extend_from_slice(b" after ")?;
            line.extend_from_slice(script.session_name(session))?;
            Ok(())
        }
    }
}

/// The line that a session begins with, without its line feed.
fn session_line(alloc: Global, script: &Script, plan: &SessionPlan) -> Result<Vec<u8>, NoMemory>
    ensures line { IfOk result (λ line. line.items ≡ bare_line (session_words script.now plan.now)) }
    ensures named { OnOk result (IsName plan.now.name) }
{
    let mut line = Vec::new(alloc);
    line.extend_from_slice(b"session ")?;
    line.extend_from_slice(plan.name.as_bytes())?;
    line.extend_from_slice(b" ")?;
    line.extend_from_slice(level_text(plan.level))?;
    push_after(&mut line, script, plan.after)?;
    Ok(line)
}

/// The lines of a session.
fn read_session_part(
    alloc: Global,
    script: &Script,
    plan: &SessionPlan,
    lines: &mut Lines,
) -> Result<Items<Answer>, ReportFault>
    requires valid { IsValidWhere script.now
        (λ table. IsValidSession script.now table plan.now) }
    requires room { lines.old.1 + length (session_dues script.now plan.now) < 2 ^ 32 }
    ensures answers { IfOk result (AreAnswers script.now plan.now) }
    ensures got { IfOk result (HasGotSession script.now plan.now lines.old lines.new) }
    ensures fault { IfErr result (IsPartFault script.now (session_dues script.now plan.now) lines.old) }
{
    let line = session_line(alloc, script, plan)?;
    read_exactly(lines, &line)?;
    read_answers(alloc, script, plan.level, plan.lines.as_slice(), lines)
}

/// The lines of sessions.
fn read_sessions(
    alloc: Global,
    script: &Script,
    plans: &[SessionPlan],
    lines: &mut Lines,
) -> Result<Items<Items<Answer>>, ReportFault>
    requires valid { IsValidWhere script.now
        (λ table. All (IsValidSession script.now table) plans.now) }
    requires room { lines.old.1 + length (sessions_dues script.now plans.now) < 2 ^ 32 }
    ensures answers { IfOk result (AllZip (AreAnswers script.now) plans.now) }
    ensures got { IfOk result (HasGotSessions script.now plans.now lines.old lines.new) }
    ensures fault { IfErr result (IsPartFault script.now (sessions_dues script.now plans.now) lines.old) }
{
    let mut answers = Items::new(Vec::new(alloc));
    for plan in plans {
        answers.push(read_session_part(alloc, script, plan, lines)?)?;
    }
    Ok(answers)
}

// ---- final cells

/// The keys and workers of the final cells, in order.
fn places_of(
    alloc: Global,
    script: &Script,
    placement: &Placement,
) -> Result<Vec<(u16, u16)>, NoMemory>
    requires { IsValidScript script.now placement.now }
    ensures { IfOk result (λ places. places.items ≡ final_places script.now placement.now) }
{
    let mut places = Vec::new(alloc);
    for i in 0..placement.keys() {
        let key = i + 1;
        let workers = ascending(alloc, script.config.workers, placement.replicas(key))?;
        push_places(&mut places, key, &workers)?;
    }
    Ok(places)
}

/// Adds a key with each of these workers.
fn push_places(places: &mut Vec<(u16, u16)>, key: u16, workers: &[u16]) -> Result<(), NoMemory>
    ensures { OnOk result (places.new.items ≡ places.old.items ++ places_at key workers.now) }
{
    for worker in workers {
        places.push((key, *worker))?;
    }
    Ok(())
}

/// The line of a final cell.
fn read_final_line(
    alloc: Global,
    script: &Script,
    key: u16,
    worker: u16,
    lines: &mut Lines,
) -> Result<FinalCell, ReportFault>
    requires valid { IsValid script.now }
    requires key { IsOneOf (length script.now.config.keys) key }
    requires worker { IsOneOf script.now.config.workers worker }
    requires room { lines.old.1 + 1 < 2 ^ 32 }
    ensures cell { IfOk result (IsFinalAt script.now key worker) }
    ensures got { IfOk result (HasGotFinal script.now key worker lines.old lines.new) }
    ensures fault { IfErr result (IsPartFault script.now (FinalOf key worker ∷ []) lines.old) }
{
    let number = lines.next;
    let text = lines.take()?;
    let Some(cell) = read_final(alloc, script, key, worker, text)? else {
        return Err(ReportFault::Form { line: number });
    };
    Ok(cell)
}

/// The lines of the final cells of keys at workers.
fn read_finals(
    alloc: Global,
    script: &Script,
    places: &[(u16, u16)],
    lines: &mut Lines,
) -> Result<Items<FinalCell>, ReportFault>
    requires valid { IsValid script.now }
    requires places { All (IsPlaceIn script.now) places.now }
    requires room { lines.old.1 + length places.now < 2 ^ 32 }
    ensures places { IfOk result (λ cells. map place_of cells ≡ places.now) }
    ensures cells { IfOk result (All (IsFinalIn script.now)) }
    ensures got { IfOk result (HasGotFinals script.now places.now lines.old lines.new) }
    ensures fault { IfErr result (IsPartFault script.now (finals_dues places.now) lines.old) }
{
    let mut cells = Items::new(Vec::new(alloc));
    for place in places {
        cells.push(read_final_line(alloc, script, place.0, place.1, lines)?)?;
    }
    Ok(cells)
}

// ---- reports

/// The lines of a report.
fn read_parts(
    alloc: Global,
    script: &Script,
    placement: &Placement,
    places: &[(u16, u16)],
    lines: &mut Lines,
) -> Result<Report, ReportFault>
    requires valid { IsValidScript script.now placement.now }
    requires places { places.now ≡ final_places script.now placement.now }
    requires first { lines.old.1 ≡ 1 }
    ensures form { IfOk result (HasForm script.now placement.now) }
    ensures got { IfOk result (HasGotReport script.now placement.now lines.old lines.new) }
    ensures fault { IfErr result (IsPartFault script.now
        (report_dues script.now placement.now) lines.old) }
{
    read_head(alloc, script, placement, lines)?;
    let answers = read_sessions(alloc, script, script.sessions.as_slice(), lines)?;
    read_exactly(lines, b"final")?;
    let finals = read_finals(alloc, script, places, lines)?;
    read_exactly(lines, b"end")?;
    Ok(Report { answers, finals })
}

/// Reads a report, where the keys live as the placement says.
pub(crate) fn read_text(
    alloc: Global,
    script: &Script,
    placement: &Placement,
    bytes: &[u8],
) -> Result<Report, ReportFault>
    requires { IsValidScript script.now placement.now }
    ensures { IsReading script.now placement.now bytes.now result }
{
    let places = places_of(alloc, script, placement)?;
    let mut lines = Lines::new(bytes);
    let report = read_parts(alloc, script, placement, &places, &mut lines)?;
    lines.end()?;
    Ok(report)
}
