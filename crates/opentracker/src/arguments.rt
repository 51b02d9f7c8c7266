//! The run that the program's arguments ask for, and the code that the process ends with.

ghost use Rattle.std.specs.Prelude.{◌≡◌, IfOk, MatchResult, drop, map, string_bytes};
ghost use Rattle.ot_io.specs.Message.{TellsLine, status_text};
ghost use Rattle.ot_io.specs.Status.{code_of};
ghost use Rattle.ot_io.specs.declared.status.Status.{Status};
ghost use Rattle.std.specs.IoError.{error_kind};
ghost use Rattle.std.specs.Vec.Iter.{into_iter_items};
ghost use Rattle.opentracker.specs.Run.{IsWordsRun, IsUnread};

use crate::run::run;
use ot_io::{Clock, Conn, Listener, Outside, Sink, Source, Status, Wire, report};
use std::alloc::{AllocError, Global};
use std::env::Args;
use std::io;
use std::sync::Wait;
use std::thread::Threads;

/// Runs what the arguments ask for, of which the first is the program's name, and gives the number
/// that the process ends with.
pub fn run_args<
    W: Wire + Send + Drop,
    K: Conn + Send + Drop,
    L: Listener<Link = K> + Send + Drop,
    C: Clock + Send + Drop,
    R: Threads + Wait + Sync,
    S: Source + Send,
    O: Sink,
    E: Sink,
    N: Outside<W = W, L = L, C = C>,
>(
    rt: &R,
    alloc: Global,
    args: io::Result<Args>,
    input: &mut S,
    out: &mut O,
    err: &mut E,
    outside: &mut N,
) -> u8
    ensures { (status : Status) × (result ≡ code_of status)
        × MatchResult args
        (λ texts. IsWordsRun S.left S.ends S.faults O.written O.faults
        N.wires_lent N.listeners_lent N.faults
        (map string_bytes (drop 1 (into_iter_items texts)))
        input.old input.new out.old out.new outside.old outside.new status)
        (λ error. IsUnread (error_kind error) status
        × (input.new ≡ input.old) × (out.new ≡ out.old) × (outside.new ≡ outside.old))
        × TellsLine (E.written err.old) (E.written err.new)
        (E.faults err.old) (E.faults err.new) (status_text status) }
{
    run_asked(rt, alloc, args, input, out, err, outside).code()
}

/// Runs what the arguments ask for, or tells that they can't be read.
fn run_asked<
    W: Wire + Send + Drop,
    K: Conn + Send + Drop,
    L: Listener<Link = K> + Send + Drop,
    C: Clock + Send + Drop,
    R: Threads + Wait + Sync,
    S: Source + Send,
    O: Sink,
    E: Sink,
    N: Outside<W = W, L = L, C = C>,
>(
    rt: &R,
    alloc: Global,
    args: io::Result<Args>,
    input: &mut S,
    out: &mut O,
    err: &mut E,
    outside: &mut N,
) -> Status
    ensures ran { MatchResult args
        (λ texts. IsWordsRun S.left S.ends S.faults O.written O.faults
        N.wires_lent N.listeners_lent N.faults
        (map string_bytes (drop 1 (into_iter_items texts)))
        input.old input.new out.old out.new outside.old outside.new result)
        (λ error. IsUnread (error_kind error) result
        × (input.new ≡ input.old) × (out.new ≡ out.old) × (outside.new ≡ outside.old)) }
    ensures told { TellsLine (E.written err.old) (E.written err.new)
        (E.faults err.old) (E.faults err.new) (status_text result) }
{
    match args {
        Ok(args) => run_read(rt, alloc, args, input, out, err, outside),
        Err(error) => tell(unread_status(&error), err),
    }
}

/// Runs what arguments ask for that could be read.
fn run_read<
    W: Wire + Send + Drop,
    K: Conn + Send + Drop,
    L: Listener<Link = K> + Send + Drop,
    C: Clock + Send + Drop,
    R: Threads + Wait + Sync,
    S: Source + Send,
    O: Sink,
    E: Sink,
    N: Outside<W = W, L = L, C = C>,
>(
    rt: &R,
    alloc: Global,
    args: Args,
    input: &mut S,
    out: &mut O,
    err: &mut E,
    outside: &mut N,
) -> Status
    ensures ran { IsWordsRun S.left S.ends S.faults O.written O.faults
        N.wires_lent N.listeners_lent N.faults
        (map string_bytes (drop 1 (into_iter_items args)))
        input.old input.new out.old out.new outside.old outside.new result }
    ensures told { TellsLine (E.written err.old) (E.written err.new)
        (E.faults err.old) (E.faults err.new) (status_text result) }
{
    match texts_of(alloc, args) {
        Ok(texts) => run_texts(rt, alloc, behind_name(&texts), input, out, err, outside),
        Err(_) => tell(Status::NoMemory, err),
    }
}

/// The arguments as a list.
fn texts_of(alloc: Global, mut args: Args) -> Result<Vec<String>, AllocError>
    ensures { IfOk result (λ texts. texts.items ≡ into_iter_items args) }
{
    let mut texts = Vec::new(alloc);
    while let Some(text) = args.next() {
        texts.push(text)?;
    }
    Ok(texts)
}

/// The arguments behind the program's name.
fn behind_name(args: &[String]) -> &[String]
    ensures { result.now ≡ drop 1 args.now }
{
    match args {
        [] => args,
        [_name, others @ ..] => others,
    }
}

/// Runs what these texts ask for.
fn run_texts<
    W: Wire + Send + Drop,
    K: Conn + Send + Drop,
    L: Listener<Link = K> + Send + Drop,
    C: Clock + Send + Drop,
    R: Threads + Wait + Sync,
    S: Source + Send,
    O: Sink,
    E: Sink,
    N: Outside<W = W, L = L, C = C>,
>(
    rt: &R,
    alloc: Global,
    texts: &[String],
    input: &mut S,
    out: &mut O,
    err: &mut E,
    outside: &mut N,
) -> Status
    ensures ran { IsWordsRun S.left S.ends S.faults O.written O.faults
        N.wires_lent N.listeners_lent N.faults
        (map string_bytes texts.now)
        input.old input.new out.old out.new outside.old outside.new result }
    ensures told { TellsLine (E.written err.old) (E.written err.new)
        (E.faults err.old) (E.faults err.new) (status_text result) }
{
    match words_of(alloc, texts) {
        Ok(words) => run(rt, alloc, &words, input, out, err, outside),
        Err(_) => tell(Status::NoMemory, err),
    }
}

/// The texts as words.
fn words_of(alloc: Global, texts: &[String]) -> Result<Vec<&str>, AllocError>
    ensures { IfOk result
        (λ words. map (λ word. word.now) words.items ≡ map string_bytes texts.now) }
{
    let mut words = Vec::new(alloc);
    for text in texts {
        words.push(text.as_str())?;
    }
    Ok(words)
}

/// The status of arguments that can't be read. One that isn't UTF-8 can't stand; which one it is
/// isn't known, so the first place is told.
fn unread_status(error: &io::Error) -> Status
    ensures { IsUnread (error_kind error.now) result }
{
    if error.kind() == io::ErrorKind::OutOfMemory {
        Status::NoMemory
    } else {
        Status::Words { at: 0 }
    }
}

/// Tells a status, and gives it back.
fn tell<E: Sink>(status: Status, err: &mut E) -> Status
    ensures same { result ≡ status }
    ensures told { TellsLine (E.written err.old) (E.written err.new)
        (E.faults err.old) (E.faults err.new) (status_text status) }
{
    report(status, err);
    status
}
