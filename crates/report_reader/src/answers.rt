//! Lines of answers and of final cells, read. A line is read without its line feed.
ghost use Rattle.std.specs.Prelude.{◌≡◌, ◌↔◌, ◌∷◌, [], IfOk, IsTrue, codes, length};
ghost use Rattle.session_known.specs.Form.{Fits};
ghost use Rattle.placement.specs.Config.{IsOneOf};
ghost use Rattle.session_known.specs.Script.{MayStand, IsValid};
ghost use Rattle.session_known.specs.declared.script.Level.{Level};
ghost use Rattle.session_known.specs.declared.script.Line.TheVariants as lines;
ghost use Rattle.report_reader.specs.ReadAnswers.{ReadsAnswer, ReadsPut, ReadsPutEnd, ReadsAnywhere};
ghost use Rattle.report_reader.specs.ReadLines.{IsFinalAt, ReadsFinal, IsValidWhere};
ghost use Rattle.script_reader.specs.Words.{texts};
ghost use Rattle.report_reader.specs.Reads.{ReadsLine};
ghost use Rattle.report_lines.specs.Text.{answer_words, number_at, final_words, worker_word};

use crate::asked::Asked;
use crate::cells::{is_key, named, read_cell};
use crate::words::{pieces_of, read_number, read_small_number, read_worker};
use lattice_laws::NoMemory;
use session_known::{Answer, FinalCell, Level, Line, Script};
use std::alloc::Global;

/// Reads the answer to a line of a session of the level.
pub(crate) fn read_answer(
    alloc: Global,
    script: &Script,
    level: Level,
    line: &Line,
    text: &[u8],
) -> Result<Option<Answer>, NoMemory>
    requires { IsValidWhere script.now (λ table. MayStand script.now table level line.now) }
    ensures { IfOk result (ReadsLine (Fits script.now level line.now)
        (answer_words script.now line.now) text.now) }
{
    let words = pieces_of(alloc, text, b' ')?;
    read_answer_words(alloc, script, level, line, words.as_slice())
}

/// Reads the words of the answer to a line.
fn read_answer_words(
    alloc: Global,
    script: &Script,
    level: Level,
    line: &Line,
    words: &[&[u8]],
) -> Result<Option<Answer>, NoMemory>
    requires { IsValidWhere script.now (λ table. MayStand script.now table level line.now) }
    ensures { IfOk result (ReadsAnswer script.now level line.now (texts words.now)) }
{
    match line {
        Line::Put { key, .. } => Ok(read_put(script, level, *key, words)),
        Line::Get { key, .. } => {
            let asked = Asked {
                alloc,
                script,
                level,
                key: *key,
            };
            asked.read_get(words)
        }
        Line::Await {
            key,
            session,
            count,
        } => {
            let asked = Asked {
                alloc,
                script,
                level,
                key: *key,
            };
            asked.read_await(*session, *count, words)
        }
        Line::Begin => Ok(read_begin(words)),
        Line::Commit => Ok(read_commit(words)),
        Line::Abort => Ok(read_abort(words)),
    }
}

// ---- puts

/// Reads the answer to a put.
fn read_put(script: &Script, level: Level, key: u16, words: &[&[u8]]) -> Option<Answer>
    ensures { ReadsPut script.now level key (texts words.now) result }
{
    let (name, said) = named(words, b"put")?;
    if !is_key(script, key, name) {
        return None;
    }
    read_put_end(level, said)
}

/// Reads what stands after the key in the answer to a put.
fn read_put_end(level: Level, words: &[&[u8]]) -> Option<Answer>
    ensures { ReadsPutEnd level (texts words.now) result }
{
    match words {
        [word] => read_unaccepted(level, word),
        [number, at, lamport] if *at == b"at".as_slice() => read_accepted(number, lamport),
        _ => None,
    }
}

/// Reads the word that stands in place of the numbers where a put is not accepted yet, or not at all.
fn read_unaccepted(level: Level, word: &[u8]) -> Option<Answer>
    ensures { ReadsPutEnd level (word.now ∷ []) result }
{
    match (level, word) {
        (Level::Committed, b"held") => Some(Answer::Held),
        (_, b"worn") => Some(Answer::Worn),
        _ => None,
    }
}

/// Reads the numbers of an accepted put.
fn read_accepted(number: &[u8], lamport: &[u8]) -> Option<Answer>
    ensures { (level : Level) → ReadsPutEnd level (number_at number.now lamport.now) result }
{
    let number = read_number(number)?;
    let lamport = read_number(lamport)?;
    Some(Answer::Put { number, lamport })
}

// ---- transactions

/// Reads the answer to the begin of a transaction.
fn read_begin(words: &[&[u8]]) -> Option<Answer>
    ensures { ReadsAnywhere lines.Begin (texts words.now) result }
{
    match words {
        [word] if *word == b"begin".as_slice() => Some(Answer::Begun),
        _ => None,
    }
}

/// Reads the answer to a commit.
fn read_commit(words: &[&[u8]]) -> Option<Answer>
    ensures { ReadsAnywhere lines.Commit (texts words.now) result }
{
    let (word, words) = named(words, b"commit")?;
    match words {
        [] => read_unnumbered(word),
        [at, lamport] if *at == b"at".as_slice() => read_committed(word, lamport),
        _ => None,
    }
}

/// Reads the word after a commit that has no Lamport number.
fn read_unnumbered(word: &[u8]) -> Option<Answer>
    ensures { ReadsAnywhere lines.Commit (codes "commit" ∷ word.now ∷ []) result }
{
    match word {
        b"0" => Some(Answer::Committed {
            puts: 0,
            lamport: 0,
        }),
        b"worn" => Some(Answer::Worn),
        _ => None,
    }
}

/// Reads the numbers of a commit of some puts.
fn read_committed(puts: &[u8], lamport: &[u8]) -> Option<Answer>
    ensures { ReadsAnywhere lines.Commit
        (codes "commit" ∷ number_at puts.now lamport.now) result }
{
    let puts = read_small_number(puts)?;
    let lamport = read_number(lamport)?;
    if puts == 0 {
        return None;
    }
    Some(Answer::Committed { puts, lamport })
}

/// Reads the answer to an abort.
fn read_abort(words: &[&[u8]]) -> Option<Answer>
    ensures { ReadsAnywhere lines.Abort (texts words.now) result }
{
    let Some((puts, [])) = named(words, b"abort") else {
        return None;
    };
    let puts = read_small_number(puts)?;
    Some(Answer::Aborted { puts })
}

// ---- final cells

/// Reads the final cell of a key at a worker.
pub(crate) fn read_final(
    alloc: Global,
    script: &Script,
    key: u16,
    worker: u16,
    text: &[u8],
) -> Result<Option<FinalCell>, NoMemory>
    requires valid { IsValid script.now }
    requires key { IsOneOf (length script.now.config.keys) key }
    requires worker { IsOneOf script.now.config.workers worker }
    ensures { IfOk result (ReadsLine (IsFinalAt script.now key worker)
        (final_words script.now) text.now) }
{
    let words = pieces_of(alloc, text, b' ')?;
    read_final_words(alloc, script, key, worker, words.as_slice())
}

/// Reads the words of the final cell of a key at a worker.
fn read_final_words(
    alloc: Global,
    script: &Script,
    key: u16,
    worker: u16,
    words: &[&[u8]],
) -> Result<Option<FinalCell>, NoMemory>
    requires valid { IsValid script.now }
    requires key { IsOneOf (length script.now.config.keys) key }
    requires worker { IsOneOf script.now.config.workers worker }
    ensures { IfOk result (ReadsFinal script.now key worker (texts words.now)) }
{
    let [name, place, cell @ ..] = words else {
        return Ok(None);
    };
    if !is_key(script, key, name) {
        return Ok(None);
    }
    if !is_worker(script, worker, place) {
        return Ok(None);
    }
    let Some(cell) = read_cell(alloc, script, key, cell)? else {
        return Ok(None);
    };
    Ok(Some(FinalCell {
        key,
        worker,
        clock: cell.clock,
        top: cell.top,
        value: cell.value,
    }))
}

/// Whether a word says a worker.
fn is_worker(script: &Script, worker: u16, word: &[u8]) -> bool
    requires valid { IsValid script.now }
    requires worker { IsOneOf script.now.config.workers worker }
    ensures { IsTrue result ↔ (word.now ≡ worker_word worker) }
{
    read_worker(script, word) == Some(worker)
}
