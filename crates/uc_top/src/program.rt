//! The program.

ghost use Rattle.std.specs.Prelude.{◌≡◌, ◌≤◌, ℕ, List, true, IfOk, Some, map, string_bytes, length};
ghost use Rattle.uc_edge.specs.Files.{Files};
ghost use Rattle.std.specs.Io.KnownBytes.{Appends};
ghost use Rattle.uc_edge.specs.Faults.{Rose, IsCounted};
ghost use Rattle.uc_words.specs.declared.command.Command.{Command};
ghost use Rattle.uc_words.specs.declared.command.Verb.TheVariants.{Check, Prove, Decide, Gen};
ghost use Rattle.uc_words.specs.Reads.{Reads};
ghost use Rattle.uc_words.specs.Table.{fits};
ghost use Rattle.uc_answer.specs.Lines.{joined};
ghost use Rattle.uc_top.specs.Runs.{MayAnswer, IsRun, IsCertified};
ghost use Rattle.uc_top.specs.Completeness.{IsComplete};
ghost use Rattle.uc_top.specs.ProveRuns.{KeepsCommand};
ghost use Rattle.uc_top.specs.DecideRuns.{KeepsDecideCommand};
ghost use Rattle.uc_top.specs.TableRuns.{KeepsTableWord};
ghost use Rattle.uc_top.specs.ModelRuns.{KeepsModelWord};
ghost use Rattle.uc_top.specs.CertifyRuns.{KeepsCertifyWord};
ghost use Rattle.uc_top.specs.GenAnswers.{GenAnswers};
ghost use Rattle.uc_top.specs.GenRuns.{KeepsGenWord};
ghost use Rattle.uc_top.specs.Faulting.{TellsFault, AnswersFault, IsStatusFaulted, IsWholeFaulted, IsFaultedRun, fault_opening, fault_text};
ghost use Rattle.uc_top.specs.Told.{CountsWrites};
ghost use Rattle.uc_top.specs.Given.{GivesAnswer};
ghost use Rattle.uc_top.specs.Headline.{Headline};

use crate::certifying::certify_answer;
use crate::checking::check_answer;
use crate::deciding::decide_answer;
use crate::deciding_by_certificate::system_answer;
use crate::generating::gen_answer;
use crate::listing::{Listing, list_answer};
use crate::modelling::model_answer;
use crate::output::{WholeAnswer, tell, tell_memory_out, text_of};
use crate::proving::prove_answer;
use crate::rewriting::rewrite_answer;
use crate::showing::show_answer;
use crate::tabling::table_answer;
use std::alloc::{AllocError, Global};
use std::sync::Wait;
use std::thread::Threads;
use uc_answer::{Answer, usage_answer};
use uc_edge::{Gate, Library, Sink};
use uc_words::{Command, Verb, WordsFault, read_words};

/// Answers the words after the program's name: tells the sink the whole answer, line by line, and answers its status.
///
/// For `check` the status is 0 where the proof file has a proof of the problem, each line of it right and the last one a
/// refutation of a goal, so that one of the problem's goals follows from its axioms; 1 where the proof reads and isn't such; 3
/// where the problem or the proof isn't there or is refused. For `show` it is 0 where the problem is there, and all its
/// clauses are told, each on a line; else 3. For `order` it is 0 where the problem is there and the words name an order for
/// it, and how it directs each axiom is told on a line of its own; 4 where the order is refused; else 3. For `rewrite` it is 0
/// where the word is a term over the problem's signature that the axioms normalise by that order, and 2 where the limit or the
/// largest size ends it, with the term and each step told; 4 where the order is refused; else 3. For `pairs` it is 0 where the
/// problem is there and the words name an order for it, and each critical pair of its axioms is told on a line of its own; 4
/// where the order is refused; else 3. For `prove` it is 0 where the text has a proof of the problem, each line of it right and the
/// last one a refutation of a goal; 1 where it has a system by which each ground term has exactly one
/// normal form, two terms share it exactly if their equation follows from the axioms, those of the encoding where a goal has a
/// variable, and no goal follows, and behind it, where `--certificate` is given, a certificate of it that passes all tests; 2 where the text names the budget, the limit on pairs or the size that ended the search; 4
/// where the order is refused; else 3. For `decide` it is 0 where each question has its line, `equal` where its
/// equation follows from the axioms and `different` where it doesn't, with the least terms to which its sides are equal; 2
/// where a question stays open, since its steps are spent or a term grew too large, or where the text names the budget, the
/// limit on pairs or the size that ended the search; 4 where the order is refused; else 3. With `--system` nothing is searched: the status
/// is 0 or 2 where each question has its line, by a certificate file whose certificate passes all tests; 1 where the certificate fails a test,
/// the first of which is told; else 3. For `table` it is 0 where the table
/// file has a table that is a model of the problem, so that none of the problem's goals follows from its axioms; 1 where an axiom
/// fails in it, or the sides of a goal meet, under the assignment that is told; else 3. For `model` it is 0 where a table up to the
/// size is a model of the problem, so that none of its goals follows, while none of a smaller size is one, and the text is that table;
/// 1 where none up to the size is one; 2 where the text names the limit that ended the search: the budget, the cells of a table or the
/// assignments of a clause; else 3. For `certify` it is 0 where the certificate file has a certificate that passes all tests, so that by
/// the order of its symbol lines its facts decide what follows from the axioms, those of the encoding where a goal has a variable; 1
/// where it reads and fails a test, the first of which is told; else 3. For `gen` it is 0 where the text has the number of constants and of
/// axioms of the generated problem, and into how many classes the constants fall by what the axioms make equal; 2 where it names the
/// limit that ended the search. 4 stands for words that have no reading, 5 for a failure of the library and 6 for one of the sink, each
/// only where its count of faults rose in this call, and 7 for want of memory.
///
/// At most one fetch fails, and it ends the call with status 5, in which case the text names the file whose fetch failed, or with 6 or
/// 7, where its line isn't written. Each line of the answer goes to the sink with its line feed in one write, and the rest of it
/// again where the sink took less. At most one write fails, and it ends the call with status 6.
///
/// `prove`, `decide` and `gen` search by as many workers as the words ask for. One worker searches in this thread. Of more, each has a thread,
/// which ends before the call does, and passes the gate between the draw of a task and its computation. `decide` also shares its questions
/// out among so many workers: each passes the gate before it answers one.
pub fn run<R: Threads + Wait + Sync, L: Library, S: Sink, G: Gate + Sync>(
    rt: &R,
    alloc: Global,
    words: &[String],
    library: &mut L,
    sink: &mut S,
    gate: &G,
) -> u8
    ensures answers { IsRun (L.holds library.old) (L.faults library.old) (L.faults library.new) (map string_bytes words.now) (S.written sink.old) (S.written sink.new) (S.faults sink.old) (S.faults sink.new) result }
    ensures certified { result ≡ 0 → (files : Files) → L.holds library.old ≡ Some files → (command : Command) → Reads (map string_bytes words.now) command → command.verb ≡ Check → IsCertified files command }
    ensures complete { (files : Files) → L.holds library.old ≡ Some files → (Rose (L.faults library.old) (L.faults library.new) → ⊥) → (Rose (S.faults sink.old) (S.faults sink.new) → ⊥) → IsComplete files (map string_bytes words.now) (S.written sink.old) (S.written sink.new) result }
    ensures headline { (files : Files) → L.holds library.old ≡ Some files → Headline files (map string_bytes words.now) (S.written sink.old) (S.written sink.new) result }
    ensures tabled { (files : Files) → L.holds library.old ≡ Some files → KeepsTableWord files (map string_bytes words.now) result }
    ensures modelled { (files : Files) → L.holds library.old ≡ Some files → KeepsModelWord files (map string_bytes words.now) (S.written sink.old) (S.written sink.new) result }
    ensures certificate { (files : Files) → L.holds library.old ≡ Some files → KeepsCertifyWord files (map string_bytes words.now) result }
    ensures counted { KeepsGenWord (map string_bytes words.now) (S.written sink.old) (S.written sink.new) result }
    ensures same { L.holds library.new ≡ L.holds library.old }
    ensures later { L.faults library.old ≤ L.faults library.new }
    ensures faulted { IsFaultedRun (L.faults library.old) (L.faults library.new) (L.failed_at library.old) (L.failed_at library.new) result }
    ensures named { result ≡ 5 → (command : Command) → Reads (map string_bytes words.now) command → (file : List ℕ) → IsCounted (Some file) (L.faults library.old) (L.faults library.new) (L.failed_at library.old) (L.failed_at library.new) → Appends (S.written sink.old) (S.written sink.new) (fault_text command file) }
    ensures sink_later { S.faults sink.old ≤ S.faults sink.new }
    ensures sink_counted { (status : ℕ) × CountsWrites (S.faults sink.old) (S.faults sink.new) status result }
    ensures given { GivesAnswer (L.holds library.old) (L.faults library.old) (L.faults library.new) (map string_bytes words.now) (S.written sink.old) (S.written sink.new) (S.faults sink.old) (S.faults sink.new) (S.pieces sink.old) (S.pieces sink.new) result }
{
    match whole_answer(rt, alloc, words, library, gate) {
        Ok(answer) => tell(sink, &answer),
        Err(_) => tell_memory_out(sink),
    }
}

// The answer to the words, its text as one.
fn whole_answer<R: Threads + Wait + Sync, L: Library, G: Gate + Sync>(
    rt: &R,
    alloc: Global,
    words: &[String],
    library: &mut L,
    gate: &G,
) -> Result<WholeAnswer, AllocError>
    ensures answers { IfOk result (λ answer. MayAnswer (L.holds library.old) (L.faults library.old) (L.faults library.new) (map string_bytes words.now) answer.status answer.text) }
    ensures certified { IfOk result (λ answer. answer.status ≡ 0 → (files : Files) → L.holds library.old ≡ Some files → (command : Command) → Reads (map string_bytes words.now) command → command.verb ≡ Check → IsCertified files command) }
    ensures promise { IfOk result (λ answer. answer.status ≤ 2 → (files : Files) → L.holds library.old ≡ Some files → (command : Command) → Reads (map string_bytes words.now) command → command.verb ≡ Prove → KeepsCommand files command answer.status answer.text) }
    ensures decided { IfOk result (λ answer. answer.status ≤ 2 → (files : Files) → L.holds library.old ≡ Some files → (command : Command) → Reads (map string_bytes words.now) command → command.verb ≡ Decide → KeepsDecideCommand files command answer.status answer.text) }
    ensures same { L.holds library.new ≡ L.holds library.old }
    ensures later { L.faults library.old ≤ L.faults library.new }
    ensures faulted { IfOk result (λ answer. (command : Command) → Reads (map string_bytes words.now) command → TellsFault (L.faults library.old) (L.faults library.new) (L.failed_at library.old) (L.failed_at library.new) (fault_opening command) answer.status answer.text) }
    ensures counted { IsWholeFaulted (L.faults library.old) (L.faults library.new) (L.failed_at library.old) (L.failed_at library.new) result }
{
    let answer = answer_of(rt, alloc, words, library, gate)?;
    let text = text_of(alloc, &answer)?;
    Ok(WholeAnswer {
        status: answer.status,
        text,
    })
}

// The answer to the words.
fn answer_of<R: Threads + Wait + Sync, L: Library, G: Gate + Sync>(
    rt: &R,
    alloc: Global,
    words: &[String],
    library: &mut L,
    gate: &G,
) -> Result<Answer, AllocError>
    ensures answers { IfOk result (λ answer. MayAnswer (L.holds library.old) (L.faults library.old) (L.faults library.new) (map string_bytes words.now) answer.status (joined answer.lines)) }
    ensures certified { IfOk result (λ answer. answer.status ≡ 0 → (files : Files) → L.holds library.old ≡ Some files → (command : Command) → Reads (map string_bytes words.now) command → command.verb ≡ Check → IsCertified files command) }
    ensures promise { IfOk result (λ answer. answer.status ≤ 2 → (files : Files) → L.holds library.old ≡ Some files → (command : Command) → Reads (map string_bytes words.now) command → command.verb ≡ Prove → KeepsCommand files command answer.status (joined answer.lines)) }
    ensures decided { IfOk result (λ answer. answer.status ≤ 2 → (files : Files) → L.holds library.old ≡ Some files → (command : Command) → Reads (map string_bytes words.now) command → command.verb ≡ Decide → KeepsDecideCommand files command answer.status (joined answer.lines)) }
    ensures same { L.holds library.new ≡ L.holds library.old }
    ensures later { L.faults library.old ≤ L.faults library.new }
    ensures faulted { (command : Command) → Reads (map string_bytes words.now) command → AnswersFault (L.faults library.old) (L.faults library.new) (L.failed_at library.old) (L.failed_at library.new) (fault_opening command) result }
    ensures counted { IsStatusFaulted (L.faults library.old) (L.faults library.new) (L.failed_at library.old) (L.failed_at library.new) result }
{
    match read_words(alloc, words) {
        Ok(command) => command_answer(rt, alloc, &command, library, gate),
        Err(WordsFault::Usage) => usage_answer(alloc),
        Err(WordsFault::NoMemory) => Err(AllocError),
    }
}

// The answer to a command.
fn command_answer<R: Threads + Wait + Sync, L: Library, G: Gate + Sync>(
    rt: &R,
    alloc: Global,
    command: &Command,
    library: &mut L,
    gate: &G,
) -> Result<Answer, AllocError>
    requires fits { fits command.now.verb (length command.now.positionals) ≡ true }
    requires words { (words : List (List ℕ)) × Reads words command.now }
    ensures answers { (words : List (List ℕ)) → Reads words command.now → IfOk result (λ answer. MayAnswer (L.holds library.old) (L.faults library.old) (L.faults library.new) words answer.status (joined answer.lines)) }
    ensures certified { command.now.verb ≡ Check → IfOk result (λ answer. answer.status ≡ 0 → (files : Files) → L.holds library.old ≡ Some files → IsCertified files command.now) }
    ensures promise { command.now.verb ≡ Prove → IfOk result (λ answer. answer.status ≤ 2 → (files : Files) → L.holds library.old ≡ Some files → KeepsCommand files command.now answer.status (joined answer.lines)) }
    ensures decided { command.now.verb ≡ Decide → IfOk result (λ answer. answer.status ≤ 2 → (files : Files) → L.holds library.old ≡ Some files → KeepsDecideCommand files command.now answer.status (joined answer.lines)) }
    ensures same { L.holds library.new ≡ L.holds library.old }
    ensures later { L.faults library.old ≤ L.faults library.new }
    ensures faulted { AnswersFault (L.faults library.old) (L.faults library.new) (L.failed_at library.old) (L.failed_at library.new) (fault_opening command.now) result }
{
    match command.verb {
        Verb::Check => match command.positionals.as_slice() {
            [name, proof] => check_answer(alloc, command.root.as_ref(), name, proof, library),
            _ => unreachable!(),
        },
        Verb::Show => match command.positionals.as_slice() {
            [name] => show_answer(alloc, command.root.as_ref(), name, library),
            _ => unreachable!(),
        },
        Verb::Order => match command.positionals.as_slice() {
            [name] => list_answer(alloc, command, name, Listing::Directions, library),
            _ => unreachable!(),
        },
        Verb::Rewrite => match command.positionals.as_slice() {
            [name, word] => rewrite_answer(alloc, command, name, word, library),
            _ => unreachable!(),
        },
        Verb::Pairs => match command.positionals.as_slice() {
            [name] => list_answer(alloc, command, name, Listing::CriticalPairs, library),
            _ => unreachable!(),
        },
        Verb::Table => match command.positionals.as_slice() {
            [name, file] => table_answer(alloc, command.root.as_ref(), name, file, library),
            _ => unreachable!(),
        },
        Verb::Model => match command.positionals.as_slice() {
            [name] => model_answer(alloc, command, name, library),
            _ => unreachable!(),
        },
        Verb::Certify => match command.positionals.as_slice() {
            [name, file] => certify_answer(alloc, command.root.as_ref(), name, file, library),
            _ => unreachable!(),
        },
        Verb::Prove => prove_command(rt, alloc, command, library, gate),
        Verb::Decide => decide_command(rt, alloc, command, library, gate),
        Verb::Gen => gen_command(rt, alloc, command, gate),
    }
}

// The answer to `prove`.
fn prove_command<R: Threads + Wait + Sync, L: Library, G: Gate + Sync>(
    rt: &R,
    alloc: Global,
    command: &Command,
    library: &mut L,
    gate: &G,
) -> Result<Answer, AllocError>
    requires prove { command.now.verb ≡ Prove }
    requires fits { fits command.now.verb (length command.now.positionals) ≡ true }
    requires words { (words : List (List ℕ)) × Reads words command.now }
    ensures answers { (words : List (List ℕ)) → Reads words command.now → IfOk result (λ answer. MayAnswer (L.holds library.old) (L.faults library.old) (L.faults library.new) words answer.status (joined answer.lines)) }
    ensures promise { IfOk result (λ answer. answer.status ≤ 2 → (files : Files) → L.holds library.old ≡ Some files → KeepsCommand files command.now answer.status (joined answer.lines)) }
    ensures same { L.holds library.new ≡ L.holds library.old }
    ensures later { L.faults library.old ≤ L.faults library.new }
    ensures faulted { AnswersFault (L.faults library.old) (L.faults library.new) (L.failed_at library.old) (L.failed_at library.new) (fault_opening command.now) result }
{
    match command.positionals.as_slice() {
        [name] => prove_answer(rt, alloc, command, name, library, gate),
        _ => unreachable!(),
    }
}

// The answer to `decide`.
fn decide_command<R: Threads + Wait + Sync, L: Library, G: Gate + Sync>(
    rt: &R,
    alloc: Global,
    command: &Command,
    library: &mut L,
    gate: &G,
) -> Result<Answer, AllocError>
    requires decide { command.now.verb ≡ Decide }
    requires fits { fits command.now.verb (length command.now.positionals) ≡ true }
    requires words { (words : List (List ℕ)) × Reads words command.now }
    ensures answers { (words : List (List ℕ)) → Reads words command.now → IfOk result (λ answer. MayAnswer (L.holds library.old) (L.faults library.old) (L.faults library.new) words answer.status (joined answer.lines)) }
    ensures decided { IfOk result (λ answer. answer.status ≤ 2 → (files : Files) → L.holds library.old ≡ Some files → KeepsDecideCommand files command.now answer.status (joined answer.lines)) }
    ensures same { L.holds library.new ≡ L.holds library.old }
    ensures later { L.faults library.old ≤ L.faults library.new }
    ensures faulted { AnswersFault (L.faults library.old) (L.faults library.new) (L.failed_at library.old) (L.failed_at library.new) (fault_opening command.now) result }
{
    match command.positionals.as_slice() {
        [name, questions @ ..] => match &command.system {
            None => decide_answer(rt, alloc, command, name, questions, library, gate),
            Some(file) => {
                system_answer(rt, alloc, command, file, name, questions, library, gate)
            }
        },
        _ => unreachable!(),
    }
}

// The answer to `gen`.
fn gen_command<R: Threads + Wait + Sync, G: Gate + Sync>(
    rt: &R,
    alloc: Global,
    command: &Command,
    gate: &G,
) -> Result<Answer, AllocError>
    requires generates { command.now.verb ≡ Gen }
    requires fits { fits command.now.verb (length command.now.positionals) ≡ true }
    requires words { (words : List (List ℕ)) × Reads words command.now }
    ensures { IfOk result (λ answer. GenAnswers command.now answer.status (joined answer.lines)) }
{
    match command.positionals.as_slice() {
        [count, start] => gen_answer(rt, alloc, command, count, start, gate),
        _ => unreachable!(),
    }
}
